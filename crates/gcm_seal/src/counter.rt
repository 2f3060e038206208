//! GCTR (SP 800-38D, section 6.5): a text is added to the ciphers of successive counter blocks, in place.

ghost use Rattle.std.specs.Prelude.{◌≡◌, ◌≤◌, length};
ghost use Rattle.snp_model.specs.Gcm.{gctr, xor_bytes};
ghost use Rattle.gcm_seal.specs.Words.{counter_block};

use aes_block::Key256;

/// The counter block of an IV and a count.
fn counter_block(iv: &[u8; 12], count: u32) -> [u8; 16]
    ensures { result ≡ counter_block iv.now count }
{
    let mut block = [0; 16];
    block[..12].copy_from_slice(iv);
    block[12..].copy_from_slice(&count.to_be_bytes());
    block
}

/// Adds the mask's first bytes to a block of at most 16 bytes.
fn add_mask(block: &mut [u8], mask: &[u8; 16])
    requires { length block.old ≤ 16 }
    ensures { block.new ≡ xor_bytes block.old mask.now }
{
    for i in 0..block.len() {
        block[i] ^= mask[i];
    }
}

/// Adds the ciphers of the counter blocks from `first` on to the text.
pub(crate) fn add_ciphers(key: &Key256, iv: &[u8; 12], first: u32, text: &mut [u8])
    requires { length text.old ≤ 65536 }
    ensures { text.new ≡ gctr key.now (counter_block iv.now first) text.old }
{
    let mut count = first;
    let mut at = 0;
    while at < text.len() {
        let end = text.len().min(at + 16);
        let mut mask = counter_block(iv, count);
        key.encrypt(&mut mask);
        add_mask(&mut text[at..end], &mask);
        count = count.wrapping_add(1);
        at = end;
    }
}
