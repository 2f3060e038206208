//! The text of a report, and the line that tells a launch digest.
#![tactic(auto)]

mod deeds;
mod digest;
mod laws;
mod line;
mod order;
mod outcomes;
mod pieces;
mod reading;
mod report;
#[cfg(test)]
mod tests;

pub use digest::write_digest;
pub use laws::runs_are_longest;
pub use line::write_line;
pub use reading::read_line;
pub use report::write_report;
