//! Pages that are sealed and opened, out of memory and back: SNP_PAGE_SWAP_OUT and SNP_PAGE_SWAP_IN (after the SEV-SNP
//! firmware ABI 56860, chapter 8), and the commands that do the same with metadata pages, which are this project's own.
#![tactic(auto)]

mod bytes;
mod metadata;
mod ownership;
mod pages;
mod sealing;
#[cfg(test)]
mod tests;
mod words;

pub use metadata::entry_test;
pub use ownership::owned;
pub use pages::{metadata_in, metadata_out, release, restore};
pub use sealing::{seal_metadata, seal_page, unseal_page};
pub use words::words_test;
