//! What the RMP says to an access.
#![tactic(auto)]

mod guest;
mod host;
mod operation;
#[cfg(test)]
mod tests;
mod validation;

pub use guest::{private_verdict, shared_verdict};
pub use host::host_verdict;
pub use snp_model::{Place, Verdict};
pub use validation::validate_refusal;
