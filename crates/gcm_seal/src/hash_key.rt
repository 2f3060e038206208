//! A hash subkey with a table of its multiples.

ghost use Rattle.std.specs.Prelude.{◌≡◌};
ghost use Rattle.snp_model.specs.Polynomials.{product};
ghost use Rattle.gcm_seal.specs.Words.{word_coefficients};

use crate::polynomial::{multiple, times_x4};
use std::marker::Model;

/// A hash subkey as a word, and its products by the polynomials of degree below 4. A contract sees the word.
#[derive(Drop)]
pub(crate) struct HashKey {
    word: u128,
    multiples: [u128; 16],
}

impl Model for HashKey {
    ghost use Rattle.std.specs.Prelude.{◌≡◌, ℕ, ◌^◌, ◌<◌, slice_index};
    ghost use Rattle.gcm_seal.specs.Words.{bits_below, word_product};

    ghost Value = { ℕ };

    ghost view = { λ k. k.word };

    ghost invariant = { λ k. (k.word < 2 ^ 128) × ((digit : ℕ) → digit < 16 → slice_index k.multiples digit ≡ word_product (bits_below 4 digit) k.word) };
}

impl HashKey {
    /// The table of a hash subkey.
    pub(crate) fn new(word: u128) -> HashKey
        ensures { result ≡ word }
    {
        let mut multiples = [0; 16];
        for digit in 0..16 {
            multiples[digit] = multiple(digit as u128, word);
        }
        HashKey { word, multiples }
    }

    /// The product of a word and the hash subkey, four coefficients at a time from those of the highest powers on.
    pub(crate) fn times(&self, word: u128) -> u128
        ensures { word_coefficients result ≡ product (word_coefficients word) (word_coefficients self.now) }
    {
        let mut product = 0;
        for i in 0..32u32 {
            let digit = (word >> (4 * i)) & 15;
            product = times_x4(product) ^ self.multiples[digit as usize];
        }
        product
    }
}
