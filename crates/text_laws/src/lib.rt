//! Theorems on texts that no code rests on: the functions do nothing, and their contracts are the theorems.
#![tactic(auto)]

mod cut;
mod order;

pub use cut::cut_texts;
pub use order::printed_orders;
