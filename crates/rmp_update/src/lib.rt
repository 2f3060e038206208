//! RMPUPDATE and PSMASH: the region that they name, the lock with its tests, and the commit.
#![tactic(auto)]

mod commit;
mod smash;
#[cfg(test)]
mod tests;
mod update;

pub use commit::update_commit;
pub use smash::{smash_commit, smash_lock, smash_region};
pub use update::{update_lock, update_region};
