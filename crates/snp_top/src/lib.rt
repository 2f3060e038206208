//! The calls of the program.
#![tactic(auto)]

pub mod batch;
#[cfg(test)]
mod drill_tests;
mod drilling;
mod errors;
pub mod fault;
pub mod fleet;
pub mod hashing;
#[cfg(test)]
mod hashing_tests;
pub mod input;
pub mod laws;
pub mod locked_fleet;
mod measuring;
mod picking;
pub mod program;
pub mod replay;
pub mod run;
#[cfg(test)]
mod run_tests;
pub mod schedule;
#[cfg(test)]
mod tests;
pub mod words;
