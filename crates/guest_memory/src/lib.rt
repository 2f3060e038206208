//! A guest's private memory as the guest may rely on it, apart from the machine: what its own events find there and leave
//! there.
#![tactic(auto)]

mod fault;
mod item;
pub mod laws;
mod memory;
mod opening;
mod page;
mod pages;
#[cfg(test)]
mod tests;

pub use fault::ApplyFault;
pub use item::may_belong;
pub use memory::GuestMemory;
