//! The measure text: pages in the order of their launch, of which the launch digest is wanted.
#![tactic(auto)]

mod page;
mod reading;
mod text;

pub use text::{RefusedLine, measure};
