//! The words and numbers of lines, and the lines of items.
#![tactic(auto)]

pub mod base16;
pub mod commands;
pub mod instructions;
pub mod item;
pub mod number;
pub mod pen;
pub mod sealing;
#[cfg(test)]
mod tests;
pub mod words;
pub mod writing;

pub use item::read_item;
pub use writing::write_item;
