//! SNP_PAGE_MOVE: a page of a guest goes from one frame to another (after the SEV-SNP firmware ABI 56860, chapter 8).
#![tactic(auto)]

mod moving;
#[cfg(test)]
mod tests;

pub use moving::{place, take};
