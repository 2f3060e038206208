//! The walk of a guest's page tables (APM volume 2, 5.3), fed one word at a time.
#![tactic(auto)]

mod entry;
mod law;
mod stand;
mod walk;

pub use entry::is_canonical;
pub use law::guest_walk_laws;
pub use stand::{guest_end, guest_end_with};
pub use walk::{GuestWalk, GuestWalked, GuestWord, NotCanonical};

#[cfg(test)]
mod tests;
