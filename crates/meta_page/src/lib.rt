//! The entries of a metadata page, which keep what belongs to a page that was sealed (this project's own layout): 64
//! entries of 64 bytes.
#![tactic(auto)]

mod fields;
mod page;
#[cfg(test)]
mod tests;

pub use page::{clear, entry, set};
pub use snp_model::MetaEntry;
