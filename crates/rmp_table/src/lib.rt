//! The entries of the reverse map table (RMP) of one region, with their locks.
#![tactic(auto)]

mod locks;
mod table;
#[cfg(test)]
mod tests;

pub use table::RmpRegion;
