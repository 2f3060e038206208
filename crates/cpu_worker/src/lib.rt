//! What a thread does for an actor: step after step, until the actor has passed its last item.
#![tactic(auto)]

#[cfg(test)]
mod tests;
mod worker;

pub use worker::work;
