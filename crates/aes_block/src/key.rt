//! The expanded key, and the cipher under it.

ghost use Rattle.std.specs.Prelude.{◌≡◌};
ghost use Rattle.snp_model.specs.Aes.{cipher};

use crate::rounds::enciphered;
use crate::schedule::expanded;
use std::marker::Model;

/// A key of 256 bits with its key schedule. A contract sees the key: its 32 bytes.
#[derive(Drop)]
pub struct Key256 {
    key: [u8; 32],
    schedule: [u32; 60],
}

impl Model for Key256 {
    ghost use Rattle.std.specs.Prelude.{◌≡◌, ℕ, List};
    ghost use Rattle.aes_block.specs.Columns.{words_of};
    ghost use Rattle.snp_model.specs.Aes.{key_expansion};

    ghost Value = { List ℕ };

    ghost view = { λ k. k.key };

    ghost invariant = { λ k. words_of k.schedule ≡ key_expansion k.key };
}

impl Key256 {
    /// Expands a key (FIPS 197, 5.2).
    pub fn new(key: &[u8; 32]) -> Key256
        ensures { result ≡ key.now }
    {
        Key256 {
            key: *key,
            schedule: expanded(key),
        }
    }

    /// Enciphers a block of 16 bytes in place (FIPS 197, 5.1).
    pub fn encrypt(&self, block: &mut [u8; 16])
        ensures { block.new ≡ cipher self.now block.old }
    {
        *block = enciphered(block, &self.schedule);
    }
}
