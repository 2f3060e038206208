//! The fields of an entry in its 64 bytes, which are eight words.

ghost use Rattle.std.specs.Prelude.{◌≡◌, ◌↔◌, ◌%◌, ◌∷◌, [], length, slice_index, IsSome};
ghost use Rattle.std.specs.Int.{w64, from_le_bytes};
ghost use Rattle.snp_model.specs.Measurement.{page_bytes};
ghost use Rattle.snp_model.specs.Metadata.{IsMetaEntry, entry_bytes, entry_from, words_of_bytes};

use snp_model::MetaEntry;

/// The first byte of an entry in use.
const IN_USE: u8 = 1;

/// The entry in these eight words.
#[tactic(auto, unfolding(snp_model::specs::Metadata::entry_from, snp_model::specs::Measurement::page_bytes))]
pub(crate) fn entry_from(words: &[u64; 8]) -> Option<MetaEntry>
    ensures entry { result ≡ entry_from (page_bytes words.now) }
    ensures in_use { IsSome result ↔ (slice_index words.now 0 % 256 ≡ 1) }
{
    let [in_use, kind, vmsa, validated, asid_low, asid_high, _, _] = words[0].to_le_bytes();
    if in_use != IN_USE {
        return None;
    }
    let [vmpl0, vmpl1, vmpl2, vmpl3, _, _, _, _] = words[2].to_le_bytes();
    Some(MetaEntry {
        kind,
        vmsa: vmsa != 0,
        validated: validated != 0,
        asid: u16::from_le_bytes([asid_low, asid_high]),
        gpn: words[1],
        perms: [vmpl0, vmpl1, vmpl2, vmpl3],
        iv: words[3],
        tag: tag_from(words[4], words[5]),
    })
}

/// The eight words of an entry, which is in use.
#[tactic(auto, unfolding(snp_model::specs::Metadata::entry_bytes))]
pub(crate) fn entry_words(entry: &MetaEntry) -> [u64; 8]
    ensures words { result ≡ words_of_bytes (entry_bytes entry.now) }
    ensures fits { IsMetaEntry entry.now }
{
    let [asid_low, asid_high] = entry.asid.to_le_bytes();
    let flags = [u8::from(entry.vmsa), u8::from(entry.validated)];
    let [vmpl0, vmpl1, vmpl2, vmpl3] = entry.perms;
    [
        u64::from_le_bytes([
            IN_USE, entry.kind, flags[0], flags[1], asid_low, asid_high, 0, 0,
        ]),
        entry.gpn,
        u64::from_le_bytes([vmpl0, vmpl1, vmpl2, vmpl3, 0, 0, 0, 0]),
        entry.iv,
        word_from(&entry.tag[..8]),
        word_from(&entry.tag[8..16]),
        0,
        0,
    ]
}

// The word of eight bytes.
fn word_from(bytes: &[u8]) -> u64
    requires { length bytes.now ≡ 8 }
    ensures { result ≡ from_le_bytes w64 bytes.now }
{
    let mut word = [0; 8];
    word.copy_from_slice(bytes);
    u64::from_le_bytes(word)
}

// The tag in two words.
fn tag_from(low: u64, high: u64) -> [u8; 16]
    ensures { result ≡ page_bytes (low ∷ high ∷ []) }
{
    let mut tag = [0; 16];
    tag[..8].copy_from_slice(&low.to_le_bytes());
    tag[8..].copy_from_slice(&high.to_le_bytes());
    tag
}
