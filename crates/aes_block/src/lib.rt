//! AES-256 (FIPS 197): the cipher of one block, in place.
#![tactic(auto)]

mod columns;
mod key;
mod laws;
mod rounds;
mod schedule;
mod tables;
#[cfg(test)]
mod tests;

pub use key::Key256;
pub use laws::inverse_is_multiplicative;
