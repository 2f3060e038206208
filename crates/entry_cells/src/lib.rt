//! Values that threads take and give back, and a journal of what was done with them. Each value stands in a cell, the
//! journal in one more, and a call takes or gives one cell in one atomic step. No call waits.
#![tactic(auto)]

mod board;
mod build;
mod cells;
mod close;
mod journal;
mod plays;
mod steps;
mod table;
mod tally;
#[cfg(test)]
mod tests;

pub use board::{Absorbed, Refusal, View};
pub use journal::{Journal, Kept};
pub use table::{Cells, Held, Pass, Taken};
