//! The launch digest of a guest: SHA-384 over PAGE_INFO of each launched page in turn (SEV-SNP firmware ABI 56860, 8.17).
#![tactic(auto)]

mod digest;
#[cfg(test)]
mod tests;

pub use digest::{Digest, digest_of_one_page_more, length_of_page_info};
