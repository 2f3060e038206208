//! The words of a region of physical memory.
#![tactic(auto)]

mod region;
#[cfg(test)]
mod tests;

pub use region::Region;
