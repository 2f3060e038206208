//! A data access together with its RMP check, in one call.
#![tactic(auto)]

mod checked;
mod operation;
#[cfg(test)]
mod tests;

pub use checked::{access, host_access};
