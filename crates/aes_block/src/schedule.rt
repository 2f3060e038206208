//! The key schedule.

ghost use Rattle.std.specs.Prelude.{◌≡◌, ◌<◌, ◌≤◌};
ghost use Rattle.std.specs.Int.{w32, to_be_bytes};
ghost use Rattle.aes_block.specs.Columns.{words_of};
ghost use Rattle.snp_model.specs.Aes.{key_expansion, key_mask};

use crate::columns::{substituted_column, word_of};

/// The first bytes of the round constants 1 to 10 (FIPS 197, table 5).
const ROUND_CONSTANTS: [u8; 10] = [0x01, 0x02, 0x04, 0x08, 0x10, 0x20, 0x40, 0x80, 0x1b, 0x36];

/// What is added to word `i - 8` for word `i`, from word `i - 1`.
#[tactic(auto, unfolding(snp_model::specs::Aes::key_mask))]
fn key_mask(i: usize, previous: u32) -> u32
    requires low { 8 ≤ i }
    requires high { i < 60 }
    ensures { to_be_bytes w32 result ≡ key_mask i (to_be_bytes w32 previous) }
{
    let [a, b, c, d] = previous.to_be_bytes();
    if i % 8 == 0 {
        substituted_column(b, c, d, a) ^ word_of(ROUND_CONSTANTS[i / 8 - 1], 0, 0, 0)
    } else if i % 8 == 4 {
        substituted_column(a, b, c, d)
    } else {
        previous
    }
}

/// The 60 words of the key schedule.
pub(crate) fn expanded(key: &[u8; 32]) -> [u32; 60]
    ensures { words_of result ≡ key_expansion key.now }
{
    let mut words = [0; 60];
    'key: for i in 0..8 {
        words[i] = word_of(key[4 * i], key[4 * i + 1], key[4 * i + 2], key[4 * i + 3]);
    }
    'rest: for i in 8..60 {
        words[i] = words[i - 8] ^ key_mask(i, words[i - 1]);
    }
    words
}
