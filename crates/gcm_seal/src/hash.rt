//! GHASH (SP 800-38D, section 6.4) of the AAD, the ciphertext and their lengths, on words of 128 bits.

ghost use Rattle.std.specs.Prelude.{◌≡◌, ◌≤◌, length, map};
ghost use Rattle.snp_model.specs.Polynomials.{coefficients, zero_polynomial};
ghost use Rattle.snp_model.specs.Gcm.{blocks, ghash, hash_subkey, hashed, lengths_block, padded};
ghost use Rattle.gcm_seal.specs.Words.{word_coefficients};

use crate::hash_key::HashKey;
use aes_block::Key256;

/// A block of up to 16 bytes, filled up with zero bytes, as a word.
fn padded_word(block: &[u8]) -> u128
    requires { length block.now ≤ 16 }
    ensures { word_coefficients result ≡ coefficients (padded block.now) }
{
    let mut bytes = [0; 16];
    bytes[..block.len()].copy_from_slice(block);
    u128::from_be_bytes(bytes)
}

/// The state after the blocks of a string.
fn absorbed(hash_key: &HashKey, start: u128, text: &[u8]) -> u128
    requires { length text.now ≤ 65536 }
    ensures { word_coefficients result ≡ ghash (word_coefficients hash_key.now) (word_coefficients start) (map padded (blocks text.now)) }
{
    let mut state = start;
    let mut at = 0;
    while at < text.len() {
        let end = text.len().min(at + 16);
        state = hash_key.times(state ^ padded_word(&text[at..end]));
        at = end;
    }
    state
}

/// The block of the lengths of the AAD and the ciphertext, in bits, as a word.
fn lengths_word(aad: &[u8], text: &[u8]) -> u128
    requires aad { length aad.now ≤ 65536 }
    requires text { length text.now ≤ 65536 }
    ensures { word_coefficients result ≡ coefficients (lengths_block aad.now text.now) }
{
    let mut bytes = [0; 16];
    bytes[..8].copy_from_slice(&(8 * aad.len() as u64).to_be_bytes());
    bytes[8..].copy_from_slice(&(8 * text.len() as u64).to_be_bytes());
    u128::from_be_bytes(bytes)
}

/// The hash subkey, as a word.
pub(crate) fn hash_subkey(key: &Key256) -> u128
    ensures { word_coefficients result ≡ hash_subkey key.now }
{
    let mut block = [0; 16];
    key.encrypt(&mut block);
    padded_word(&block)
}

/// The hash of AAD and a ciphertext, as a word.
pub(crate) fn hash_of(hash_key: &HashKey, aad: &[u8], text: &[u8]) -> u128
    requires aad { length aad.now ≤ 65536 }
    requires text { length text.now ≤ 65536 }
    ensures { word_coefficients result ≡ ghash (word_coefficients hash_key.now) zero_polynomial (hashed aad.now text.now) }
{
    let after_aad = absorbed(hash_key, 0, aad);
    let after_text = absorbed(hash_key, after_aad, text);
    hash_key.times(after_text ^ lengths_word(aad, text))
}
