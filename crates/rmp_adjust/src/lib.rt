//! RMPADJUST: what is tested before its walk, the lock with its tests, and the commit.
#![tactic(auto)]

mod adjust;
#[cfg(test)]
mod tests;

pub use adjust::{adjust_commit, adjust_input, adjust_lock};
