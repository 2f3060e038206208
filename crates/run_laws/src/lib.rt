//! The laws of runs: what ties the pages of a guest to their holders, and what steps and runs keep, for the crates that prove
//! something of a machine.
#![tactic(auto)]

mod uniqueness;

pub use uniqueness::uniqueness_laws;
