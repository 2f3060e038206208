//! The picks of a driven run, drawn by the generator of a drill.
#![tactic(auto)]

#[cfg(test)]
mod tests;
mod turns;

pub use turns::DrillTurns;
