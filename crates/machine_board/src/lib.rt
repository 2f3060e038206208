//! A machine with the journal of what its actors did, for one thread and for several.
#![tactic(auto)]

mod board;
mod finish;
mod locked;
#[cfg(test)]
mod tests;

pub use board::Board;
pub use locked::{BoardPass, LockedBoard};
