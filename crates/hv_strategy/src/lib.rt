//! Hypervisors that choose their next item by what they see, and the one driver of all runs whose scripts grow. This project's own.
#![tactic(auto)]

mod driver;
mod dueling;
mod ring;
mod shipped;
#[cfg(test)]
mod tests;

pub use driver::{Asks, drive};
pub use dueling::{Acts, Duelists, Strategy, duel};
pub use ring::{Ring, Turns};
pub use shipped::Shipped;
