//! SNP_PAGE_RECLAIM, and SNP_PAGE_MD_INIT, which makes what it takes back (after the SEV-SNP firmware ABI 56860, chapter 8).
#![tactic(auto)]

mod reclaim;
#[cfg(test)]
mod tests;

pub use reclaim::{md_commit, reclaim_commit};
