//! The bytes of a page: its 512 words, each low byte first.

ghost use Rattle.std.specs.Prelude.{◌≡◌, length};
ghost use Rattle.std.specs.Int.{w64, from_le_bytes};
ghost use Rattle.snp_model.specs.Measurement.{page_bytes};
ghost use Rattle.snp_model.specs.Metadata.{words_of_bytes};

/// Writes the bytes of a page's words.
#[tactic(auto, using(snp_model::proofs::PageBytesLaws::bytes_more))]
pub(crate) fn write_bytes(words: &[u64; 512], bytes: &mut [u8; 4096])
    ensures { bytes.new ≡ page_bytes words.now }
{
    for i in 0..512 {
        bytes[8 * i..8 * i + 8].copy_from_slice(&words[i].to_le_bytes());
    }
}

/// Writes the words of a page's bytes.
#[tactic(auto, using(snp_model::proofs::PageBytesLaws::words_more))]
pub(crate) fn write_words(bytes: &[u8; 4096], words: &mut [u64; 512])
    ensures { words.new ≡ words_of_bytes bytes.now }
{
    for i in 0..512 {
        words[i] = word_from(&bytes[8 * i..8 * i + 8]);
    }
}

// The word of eight bytes.
fn word_from(bytes: &[u8]) -> u64
    requires { length bytes.now ≡ 8 }
    ensures { result ≡ from_le_bytes w64 bytes.now }
{
    let mut word = [0; 8];
    word.copy_from_slice(bytes);
    u64::from_le_bytes(word)
}
