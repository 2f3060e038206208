//! AES-256-GCM with 96-bit IVs and 128-bit tags (NIST SP 800-38D).
#![tactic(auto)]

mod counter;
mod hash;
mod hash_key;
mod polynomial;
mod sealing;
#[cfg(test)]
mod tests;

pub use sealing::{TagDiffers, seal, unseal, unsealing_undoes_sealing};
