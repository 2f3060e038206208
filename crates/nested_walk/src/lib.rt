//! The walk of nested page tables (APM volume 2, 5.3 and 15.25.6), fed one word at a time.
#![tactic(auto)]

mod entry;
mod law;
mod stand;
mod walk;

pub use law::nested_walk_laws;
pub use stand::{nested_end, nested_end_after, nested_end_with};
pub use walk::{NestedWalk, Walked, WordAddress};

#[cfg(test)]
mod tests;
