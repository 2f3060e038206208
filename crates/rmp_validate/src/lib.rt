//! PVALIDATE, as the frame of its page is known: the lock with its tests, and the commit.
#![tactic(auto)]

#[cfg(test)]
mod tests;
mod validate;

pub use validate::{validate_commit, validate_lock};
