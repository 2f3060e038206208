//! Sealing and unsealing in place (SP 800-38D, section 7).

ghost use Rattle.std.specs.Prelude.{◌≡◌, ◌≤◌, ℕ, List, length, IsOk, OnOk, OnErr, IfErr};
ghost use Rattle.snp_model.specs.Gcm.{plain, seal, tag};

use crate::counter::add_ciphers;
use crate::hash::{hash_of, hash_subkey};
use crate::hash_key::HashKey;
use aes_block::Key256;

/// A tag that a ciphertext does not have.
#[derive(Clone, Copy, Debug, PartialEq, Eq)]
pub struct TagDiffers {
    /// The tag of the AAD and the ciphertext.
    pub found: [u8; 16],
    /// The tag that was kept with them.
    pub kept: [u8; 16],
}

/// The tag of AAD and a ciphertext.
fn tag_of(key: &Key256, iv: &[u8; 12], aad: &[u8], text: &[u8]) -> [u8; 16]
    requires aad { length aad.now ≤ 65536 }
    requires text { length text.now ≤ 65536 }
    ensures { result ≡ tag key.now iv.now aad.now text.now }
{
    let hash = hash_of(&HashKey::new(hash_subkey(key)), aad, text);
    let mut tag = hash.to_be_bytes();
    add_ciphers(key, iv, 1, &mut tag);
    tag
}

/// Encrypts the text in place, or decrypts it.
fn add_keystream(key: &Key256, iv: &[u8; 12], text: &mut [u8])
    requires { length text.old ≤ 65536 }
    ensures { text.new ≡ plain key.now iv.now text.old }
{
    add_ciphers(key, iv, 2, text)
}

/// Encrypts a text of at most 65,536 bytes in place under a 96-bit IV, and gives the tag of its ciphertext and as many bytes of AAD.
#[tactic(auto, unfolding(snp_model::specs::Gcm::seal, snp_model::specs::Gcm::plain))]
pub fn seal(key: &Key256, iv: &[u8; 12], aad: &[u8], text: &mut [u8]) -> [u8; 16]
    requires aad { length aad.now ≤ 65536 }
    requires text { length text.old ≤ 65536 }
    ensures ciphertext { text.new ≡ (seal key.now iv.now aad.now text.old).0 }
    ensures tag { result ≡ (seal key.now iv.now aad.now text.old).1 }
{
    add_keystream(key, iv, text);
    tag_of(key, iv, aad, text)
}

/// Decrypts in place a ciphertext whose tag is the one that was kept, and leaves any other as it is.
pub fn unseal(
    key: &Key256,
    iv: &[u8; 12],
    aad: &[u8],
    text: &mut [u8],
    kept: &[u8; 16],
) -> Result<(), TagDiffers>
    requires aad { length aad.now ≤ 65536 }
    requires text { length text.old ≤ 65536 }
    ensures accepts { tag key.now iv.now aad.now text.old ≡ kept.now → IsOk result }
    ensures same_tag { OnOk result (tag key.now iv.now aad.now text.old ≡ kept.now) }
    ensures plaintext { OnOk result (text.new ≡ plain key.now iv.now text.old) }
    ensures tags { IfErr result (λ e. (e.found ≡ tag key.now iv.now aad.now text.old) × (e.kept ≡ kept.now)) }
    ensures unchanged { OnErr result (text.new ≡ text.old) }
{
    let found = tag_of(key, iv, aad, text);
    if found == *kept {
        add_keystream(key, iv, text);
        Ok(())
    } else {
        Err(TagDiffers { found, kept: *kept })
    }
}

/// To unseal what was sealed gives the text back: its tag is the one that was made, and its plaintext is the text.
#[tactic(auto, using(snp_model::proofs::GctrLaws::gctr_twice), unfolding(snp_model::specs::Gcm::seal, snp_model::specs::Gcm::plain))]
pub fn unsealing_undoes_sealing()
    ensures tag { (key iv aad text : List ℕ) → let sealed = seal key iv aad text in tag key iv aad sealed.0 ≡ sealed.1 }
    ensures text { (key iv aad text : List ℕ) → plain key iv (seal key iv aad text).0 ≡ text }
{}
