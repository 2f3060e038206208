//! The context of a guest, as the firmware keeps it (after the SEV-SNP firmware ABI 56860, 4.1).
#![tactic(auto)]

mod context;
#[cfg(test)]
mod tests;

pub use context::{GuestContext, Oflow};
pub use snp_model::{GuestState, InUse, MetaEntry};
