//! A column of the state as a word, whose highest byte is in row 0.

ghost use Rattle.std.specs.Prelude.{◌≡◌, ◌∷◌, []};
ghost use Rattle.std.specs.Int.{w32, to_be_bytes};
ghost use Rattle.snp_model.specs.Aes.{add_words, mixed_column};
ghost use Rattle.snp_model.specs.AesField.{s_box};

use crate::tables::{FIRST_ROW, FOURTH_ROW, S_BOX, SECOND_ROW, THIRD_ROW};

/// The word of four bytes, the first of them the highest.
pub(crate) fn word_of(a: u8, b: u8, c: u8, d: u8) -> u32
    ensures { to_be_bytes w32 result ≡ a ∷ b ∷ c ∷ d ∷ [] }
{
    u32::from_be_bytes([a, b, c, d])
}

/// The S-box of a byte.
fn substituted(byte: u8) -> u8
    ensures { result ≡ s_box byte }
{
    S_BOX[byte as usize]
}

/// The word of the S-boxes of four bytes.
pub(crate) fn substituted_column(a: u8, b: u8, c: u8, d: u8) -> u32
    ensures { to_be_bytes w32 result ≡ s_box a ∷ s_box b ∷ s_box c ∷ s_box d ∷ [] }
{
    word_of(
        substituted(a),
        substituted(b),
        substituted(c),
        substituted(d),
    )
}

/// A column after SubBytes, ShiftRows, MixColumns and AddRoundKey, from the four bytes that ShiftRows brings into it.
pub(crate) fn mixed_column(a: u8, b: u8, c: u8, d: u8, key: u32) -> u32
    ensures { to_be_bytes w32 result
        ≡ add_words (mixed_column (s_box a) (s_box b) (s_box c) (s_box d)) (to_be_bytes w32 key) }
{
    FIRST_ROW[a as usize]
        ^ SECOND_ROW[b as usize]
        ^ THIRD_ROW[c as usize]
        ^ FOURTH_ROW[d as usize]
        ^ key
}
