//! The journal of a run.
#![tactic(auto)]

mod journal;
mod short;

pub use journal::{Journal, Kept};
pub use short::{Short, ShortDeed};
