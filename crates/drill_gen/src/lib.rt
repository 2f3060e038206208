//! Drawn scenarios, which a number determines, and numbers after them. This project's own.
#![tactic(auto)]

mod drill;
mod items;
mod law;
mod opening;
mod scenario;
#[cfg(test)]
mod tests;

pub use drill::Drill;
pub use law::generated_scenarios;
