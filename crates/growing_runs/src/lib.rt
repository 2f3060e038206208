//! Runs whose scripts go on: what was run stays the run when an actor gets further items (laws: functions that do nothing), what a
//! driven run is, and what the two of a duel see.
#![tactic(auto)]

mod law;
mod sight;

pub use law::{
    disciplined_scripts, ended_scripts, extended_scripts, grown_scenarios, inside_accesses,
    kept_scripts, plain_scripts,
};
pub use sight::{Duel, Sight};
