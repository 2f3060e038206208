//! The states of a page, and which of them each command of the firmware takes its pages in (after the SEV-SNP firmware
//! ABI 56860, 5.2 and chapter 8).
#![tactic(auto)]

mod commands;
mod state;
#[cfg(test)]
mod tests;

pub use commands::allowed;
pub use snp_model::{PageState, Part};
pub use state::state_of;
