//! Theorems on all steps and runs that no code rests on, for who reasons about the machine: the functions do nothing, and their
//! contracts are the theorems.
#![tactic(auto)]

mod counter;
mod guest;
mod launch;
mod locks;
mod premise;
mod refusal;
mod sealing;
mod table;

pub use counter::sealing_counters;
pub use guest::{ranged_events, running_guests};
pub use launch::launch_digests;
pub use locks::touched_locks;
pub use premise::second_premise;
pub use refusal::refused_steps;
pub use sealing::sealed_pages;
pub use table::checked_reads;
