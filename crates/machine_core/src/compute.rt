ghost use Rattle.std.specs.Prelude.{◌≡◌, ◌<◌, ◌^◌, List, IsSome};
ghost use Rattle.snp_model.specs.declared.scenario.GuestSpec.{GuestSpec};
ghost use Rattle.snp_model.specs.Sealing.{compute_of, made_of, opened_as, opens_as, sealed_as, slot_entry};
ghost use Rattle.machine_core.specs.Bays.{HasFrame, contents_of, pages_of};
ghost use Rattle.machine_core.specs.Seals.{HasSlot, computed_by, made_by, sealing_by, slot_by, what_by};

use crate::parts::Parts;
use crate::sealing::{Sealing, Slot, Way, What};
use fw_swap::{owned, seal_metadata, seal_page, unseal_page};
use guest_context::GuestContext;
use snp_model::{FwRefusal, MetaEntry, RmpEntry};

/// INVALID_MDATA_ENTRY (SEV-SNP firmware ABI 56860, 6).
const INVALID_MDATA_ENTRY: u16 = 0x1b;

/// INVALID_PAGE_OWNER (SEV-SNP firmware ABI 56860, 6).
const INVALID_PAGE_OWNER: u16 = 0x1c;

/// The compute of a page that is sealed or opened: `words` become the ciphertext of the source's words, or what its
/// ciphertext opens to. Gives the entry of the sealed page, or that which it was opened with; or what refuses it, and what
/// `words` hold then doesn't matter. Memory and the contexts stay.
pub fn make<P: Parts>(
    parts: &P,
    sealing: &Sealing,
    words: &mut [u64; 512],
) -> Result<MetaEntry, FwRefusal>
    requires has_source { HasFrame (P.stock parts.now) sealing.now.source }
    requires has_context { IsSome ((P.stock parts.now).contexts sealing.now.guest) }
    requires has_slot { HasSlot (slot_by sealing.now.slot) (P.stock parts.now) }
    requires source_below { sealing.now.source < 2 ^ 32 }
    ensures { (guests : List GuestSpec) → computed_by result words.new ≡ compute_of (contents_of (P.stock parts.now) guests) (sealing_by sealing.now) }
{
    let entry = copy_out(parts, sealing.source as u32, words);
    let context = parts.context(sealing.guest);
    match sealing.way {
        Way::Out => Ok(seal(context, sealing.what, &entry, words)),
        Way::In => {
            let kept = slot_entry(parts, context, &sealing.slot);
            unseal(context, sealing.what, &kept, words)
        }
    }
}

// Copies the words of a frame out, and gives its entry.
fn copy_out<P: Parts>(parts: &P, frame: u32, words: &mut [u64; 512]) -> RmpEntry
    requires { HasFrame (P.stock parts.now) frame }
    ensures entry { result ≡ (pages_of (P.stock parts.now).bays frame).facts }
    ensures words { words.new ≡ (pages_of (P.stock parts.now).bays frame).words }
{
    let slot = (frame % 512) as usize;
    let bay = parts.bay(frame / 512);
    bay.memory.page_copy_out(slot, words);
    bay.rmp.effective(slot)
}

// Seals words under a context: gives their entry.
fn seal(context: &GuestContext, what: What, entry: &RmpEntry, words: &mut [u64; 512]) -> MetaEntry
    ensures { made_by result words.new ≡ made_of (sealed_as (what_by what) context.now.context (record { facts = entry.now; words = words.old })) }
{
    match what {
        What::GuestPage => seal_page(context, entry, words),
        What::MetadataPage => seal_metadata(context, words),
    }
}

// The entry at a slot.
fn slot_entry<P: Parts>(parts: &P, context: &GuestContext, slot: &Slot) -> Option<MetaEntry>
    requires { HasSlot (slot_by slot.now) (P.stock parts.now) }
    ensures { result ≡ slot_entry (pages_of (P.stock parts.now).bays) context.now.context (slot_by slot.now) }
{
    match slot {
        Slot::OfEntry { metadata, number } => {
            let frame = *metadata as u32;
            let bay = parts.bay(frame / 512);
            meta_page::entry(&bay.memory, (frame % 512) as usize, *number as usize)
        }
        Slot::OfRoot => context.root,
    }
}

// Opens words with the entry that was kept of them, and gives it.
#[tactic(auto, unfolding(snp_model::specs::Sealing::opened_as, snp_model::specs::Sealing::opened_with))]
fn unseal(
    context: &GuestContext,
    what: What,
    kept: &Option<MetaEntry>,
    words: &mut [u64; 512],
) -> Result<MetaEntry, FwRefusal>
    ensures { computed_by result words.new ≡ opened_as (what_by what) context.now.context kept.now words.old }
{
    match kept {
        None => Err(FwRefusal::Status(INVALID_MDATA_ENTRY)),
        Some(entry) => match unseal_page(context, entry, words) {
            Err(refusal) => Err(refusal),
            Ok(()) => {
                if opens_as(what, context.asid, words) {
                    Ok(*entry)
                } else {
                    Err(FwRefusal::Status(INVALID_PAGE_OWNER))
                }
            }
        },
    }
}

// Whether opened words are taken: the entries in use of a metadata page have to be the guest's.
fn opens_as(what: What, asid: u16, words: &[u64; 512]) -> bool
    ensures { result ≡ opens_as (what_by what) asid words.now }
{
    match what {
        What::GuestPage => true,
        What::MetadataPage => owned(words, asid),
    }
}
