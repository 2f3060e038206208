ghost use Rattle.std.specs.Prelude.{◌≡◌, IsOk, OnOk, OnErr, IfErr, Ok, Err};
ghost use Rattle.std.specs.Int.{w64, to_le_bytes};
ghost use Rattle.snp_model.specs.declared.event.FwRefusal.{FwRefusal};
ghost use Rattle.snp_model.specs.declared.event.FwRefusal.TheVariants.{BadTag};
ghost use Rattle.snp_model.specs.Metadata.{aad_of, found_tag, iv_of, opened, opened_words, sealed, sealed_metadata, sealed_page};

use crate::bytes::{write_bytes, write_words};
use gcm_seal::{TagDiffers, seal, unseal};
use guest_context::GuestContext;
use snp_model::{FwRefusal, MetaEntry, RmpEntry};

/// The kind of an entry of a guest page.
const GUEST_PAGE: u8 = 1;

/// The kind of an entry of a metadata page.
const METADATA_PAGE: u8 = 2;

/// The guest page number in an entry of a metadata page.
const NO_GUEST_PAGE: u64 = 1 << 63;

/// Seals a page of the context's guest, whose RMP entry this is, under the context's key and counter: the words become the
/// ciphertext. Gives the entry that opens it again.
pub fn seal_page(context: &GuestContext, entry: &RmpEntry, words: &mut [u64; 512]) -> MetaEntry
    ensures entry { result ≡ (sealed_page context.now.context entry.now words.old).entry }
    ensures ciphertext { words.new ≡ (sealed_page context.now.context entry.now words.old).words }
{
    let entry = MetaEntry {
        kind: GUEST_PAGE,
        vmsa: entry.vmsa,
        validated: entry.validated,
        asid: context.asid,
        gpn: entry.gpn,
        perms: entry.perms,
        iv: context.iv,
        tag: [0; 16],
    };
    sealed(context, entry, words)
}

/// Seals a metadata page under the context's key and counter: the words become the ciphertext. Gives the entry that opens
/// it again.
pub fn seal_metadata(context: &GuestContext, words: &mut [u64; 512]) -> MetaEntry
    ensures entry { result ≡ (sealed_metadata context.now.context words.old).entry }
    ensures ciphertext { words.new ≡ (sealed_metadata context.now.context words.old).words }
{
    let entry = MetaEntry {
        kind: METADATA_PAGE,
        vmsa: false,
        validated: false,
        asid: context.asid,
        gpn: NO_GUEST_PAGE,
        perms: [0; 4],
        iv: context.iv,
        tag: [0; 16],
    };
    sealed(context, entry, words)
}

/// Opens a sealed page, of either kind, with its entry and the context's key: the words become those that were sealed.
/// BadTag where the tag of the ciphertext isn't the one that the entry keeps; the words then stay.
pub fn unseal_page(
    context: &GuestContext,
    entry: &MetaEntry,
    words: &mut [u64; 512],
) -> Result<(), FwRefusal>
    ensures opened { IsOk result → opened context.now.context entry.now words.old ≡ Ok words.new }
    ensures refused { (refusal : FwRefusal) → result ≡ Err refusal → opened context.now.context entry.now words.old ≡ Err refusal }
    ensures accepts { found_tag context.now.context.key entry.now words.old ≡ entry.now.tag → IsOk result }
    ensures same_tag { OnOk result (found_tag context.now.context.key entry.now words.old ≡ entry.now.tag) }
    ensures plaintext { OnOk result (words.new ≡ opened_words context.now.context.key entry.now words.old) }
    ensures tags { IfErr result (λ refusal. refusal ≡ BadTag (found_tag context.now.context.key entry.now words.old) entry.now.tag) }
    ensures unchanged { OnErr result (words.new ≡ words.old) }
{
    let mut bytes = [0; 4096];
    write_bytes(words, &mut bytes);
    match unseal(
        context.key(),
        &iv_of(entry.iv),
        &aad_of(entry),
        &mut bytes,
        &entry.tag,
    ) {
        Ok(()) => {
            write_words(&bytes, words);
            Ok(())
        }
        Err(differs) => Err(bad_tag(&differs)),
    }
}

// The refusal where the tags differ.
fn bad_tag(differs: &TagDiffers) -> FwRefusal
    ensures { result ≡ BadTag differs.now.found differs.now.kept }
{
    let found = differs.found;
    let kept = differs.kept;
    FwRefusal::BadTag { found, kept }
}

// Seals words with an entry, which gets the tag.
#[tactic(auto, unfolding(snp_model::specs::Metadata::sealed))]
fn sealed(context: &GuestContext, entry: MetaEntry, words: &mut [u64; 512]) -> MetaEntry
    ensures entry { result ≡ (sealed context.now.context.key entry words.old).entry }
    ensures ciphertext { words.new ≡ (sealed context.now.context.key entry words.old).words }
{
    let mut bytes = [0; 4096];
    write_bytes(words, &mut bytes);
    let tag = seal(context.key(), &iv_of(entry.iv), &aad_of(&entry), &mut bytes);
    write_words(&bytes, words);
    MetaEntry { tag, ..entry }
}

// The IV of a counter.
#[tactic(auto, unfolding(snp_model::specs::Metadata::iv_of))]
fn iv_of(counter: u64) -> [u8; 12]
    ensures { result ≡ iv_of counter }
{
    let mut iv = [0; 12];
    iv[4..].copy_from_slice(&counter.to_le_bytes());
    iv
}

// The additional data of an entry.
#[tactic(auto, unfolding(snp_model::specs::Metadata::aad_of))]
fn aad_of(entry: &MetaEntry) -> [u8; 16]
    ensures { result ≡ aad_of entry.now }
{
    let mut aad = [0; 16];
    aad[..8].copy_from_slice(&u64::from(entry.asid).to_le_bytes());
    aad[8..].copy_from_slice(&entry.gpn.to_le_bytes());
    aad
}
