ghost use Rattle.std.specs.Prelude.{◌≡◌, ◌≢◌, ◌<◌, ◌^◌, [], None, Some, IsSome};
ghost use Rattle.snp_model.specs.declared.entry.PageSize.TheVariants.{Small};
ghost use Rattle.snp_model.specs.declared.event.Outcome.TheVariants.{Firmware};
ghost use Rattle.snp_model.specs.Firmware.{success};
ghost use Rattle.snp_model.specs.FirmwareCommits.{at_frame, with_words};
ghost use Rattle.snp_model.specs.FirmwareStep.{small_shown};
ghost use Rattle.snp_model.specs.Sealing.{brought_back, entry_set, given_up, pages_in, pages_out, with_slot_entry};
ghost use Rattle.run_laws.specs.KeptLocks.{relocked};
ghost use Rattle.machine_core.specs.Bays.{HasFrame, holders_of, pages_of};
ghost use Rattle.machine_core.specs.CommandPages.{HoldsLocks, StillHas};
ghost use Rattle.machine_core.specs.Seals.{HasSlot, MaySwap, gpn_shown, made_by, sealing_locks, slot_by, what_by};

use crate::parts::Parts;
use crate::release::release;
use crate::sealing::{Sealing, Slot, What};
use crate::shown::Shown;
use fw_swap::{metadata_in, metadata_out, restore};
use meta_page::{clear, set};
use snp_model::{Deed, MetaEntry, Outcome, PageSize};

/// The commit of the pages of a command that seals one, which releases their locks: the source is given up, the target gets
/// the ciphertext that the compute has made, and the entry is written where it is kept in a metadata page. It names the
/// source with the guest page number that it had; a metadata page has none. Contexts stay.
pub fn seal_pages<P: Parts>(
    parts: &mut P,
    number: u32,
    sealing: &Sealing,
    entry: &MetaEntry,
    words: &[u64; 512],
    shown: &mut Shown,
)
    requires may { MaySwap number sealing.now (P.stock parts.old) }
    requires apart { sealing.now.source ≢ sealing.now.target }
    ensures shown { let page = pages_of (P.stock parts.old).bays sealing.now.source in
        shown.new ≡ record { deed = small_shown sealing.now.source (gpn_shown (what_by sealing.now.what) page); outcome = Some (Firmware success); lock = None } }
    ensures pages { pages_of (P.stock parts.new).bays ≡ pages_out (what_by sealing.now.what) sealing.now.source sealing.now.target (slot_by sealing.now.slot) (made_by entry.now words.now) (pages_of (P.stock parts.old).bays) }
    ensures locks { holders_of (P.stock parts.new).bays ≡ relocked number [] (holders_of (P.stock parts.old).bays) }
    ensures contexts { (P.stock parts.new).contexts ≡ (P.stock parts.old).contexts }
    ensures kept { P.kept parts.old parts.new }
{
    let source = sealing.source as u32;
    let gpn = give_up(parts, sealing.what, source);
    write_words(parts, sealing.target as u32, words);
    write_slot(parts, &sealing.slot, &Some(*entry));
    release_sealing(parts, number, sealing);
    *shown = swapped(source, gpn);
}

/// The commit of the pages of a command that opens one, which releases their locks: the target gets the words that the
/// compute has made, with what the entry keeps of the page, and the entry is cleared where it is kept in a metadata page;
/// the source stays. It names the target with the guest page number that it has then; a metadata page has none. Contexts stay.
pub fn open_pages<P: Parts>(
    parts: &mut P,
    number: u32,
    sealing: &Sealing,
    entry: &MetaEntry,
    words: &[u64; 512],
    shown: &mut Shown,
)
    requires may { MaySwap number sealing.now (P.stock parts.old) }
    ensures shown { let page = pages_of (P.stock parts.new).bays sealing.now.target in
        shown.new ≡ record { deed = small_shown sealing.now.target (gpn_shown (what_by sealing.now.what) page); outcome = Some (Firmware success); lock = None } }
    ensures pages { pages_of (P.stock parts.new).bays ≡ pages_in (what_by sealing.now.what) sealing.now.target (slot_by sealing.now.slot) (made_by entry.now words.now) (pages_of (P.stock parts.old).bays) }
    ensures locks { holders_of (P.stock parts.new).bays ≡ relocked number [] (holders_of (P.stock parts.old).bays) }
    ensures contexts { (P.stock parts.new).contexts ≡ (P.stock parts.old).contexts }
    ensures kept { P.kept parts.old parts.new }
{
    let target = sealing.target as u32;
    let gpn = bring_back(parts, sealing.what, target, entry, words);
    write_slot(parts, &sealing.slot, &None);
    release_sealing(parts, number, sealing);
    *shown = swapped(target, gpn);
}

// What is shown of a commit that names a frame of 4 KB with a guest page number.
fn swapped(frame: u32, gpn: u64) -> Shown
    ensures { result ≡ record { deed = small_shown frame gpn; outcome = Some (Firmware success); lock = None } }
{
    let size = PageSize::Small;
    Shown::last(Deed::Commit { frame, gpn, size }, Outcome::Firmware(0))
}

// Gives up the page of the locked source: gives the guest page number that is shown of it.
fn give_up<P: Parts>(parts: &mut P, what: What, frame: u32) -> u64
    requires has { HasFrame (P.stock parts.old) frame }
    requires locked { IsSome (holders_of (P.stock parts.old).bays frame) }
    requires small { (pages_of (P.stock parts.old).bays frame).facts.size ≡ Small }
    ensures gpn { result ≡ gpn_shown (what_by what) (pages_of (P.stock parts.old).bays frame) }
    ensures pages { pages_of (P.stock parts.new).bays ≡ at_frame frame (given_up (what_by what) (pages_of (P.stock parts.old).bays frame)) (pages_of (P.stock parts.old).bays) }
    ensures locks { holders_of (P.stock parts.new).bays ≡ holders_of (P.stock parts.old).bays }
    ensures has { StillHas (P.stock parts.old) (P.stock parts.new) }
    ensures contexts { (P.stock parts.new).contexts ≡ (P.stock parts.old).contexts }
    ensures kept { P.kept parts.old parts.new }
{
    let slot = (frame % 512) as usize;
    let bay = parts.bay_mut(frame / 512);
    match what {
        What::GuestPage => {
            let gpn = bay.rmp.effective(slot).gpn;
            fw_swap::release(&mut bay.memory, &mut bay.rmp, slot);
            gpn
        }
        What::MetadataPage => {
            metadata_out(&mut bay.memory, &mut bay.rmp, slot);
            0
        }
    }
}

// Writes the words of a frame.
fn write_words<P: Parts>(parts: &mut P, frame: u32, words: &[u64; 512])
    requires has { HasFrame (P.stock parts.old) frame }
    ensures pages { pages_of (P.stock parts.new).bays ≡ at_frame frame (with_words words.now (pages_of (P.stock parts.old).bays frame)) (pages_of (P.stock parts.old).bays) }
    ensures locks { holders_of (P.stock parts.new).bays ≡ holders_of (P.stock parts.old).bays }
    ensures has { StillHas (P.stock parts.old) (P.stock parts.new) }
    ensures contexts { (P.stock parts.new).contexts ≡ (P.stock parts.old).contexts }
    ensures kept { P.kept parts.old parts.new }
{
    let slot = (frame % 512) as usize;
    let bay = parts.bay_mut(frame / 512);
    bay.memory.whole();
    bay.memory.page_copy_in(slot, words);
}

// Brings back the page of the locked target: gives the guest page number that is shown of it.
fn bring_back<P: Parts>(
    parts: &mut P,
    what: What,
    frame: u32,
    entry: &MetaEntry,
    words: &[u64; 512],
) -> u64
    requires has { HasFrame (P.stock parts.old) frame }
    requires locked { IsSome (holders_of (P.stock parts.old).bays frame) }
    requires small { (pages_of (P.stock parts.old).bays frame).facts.size ≡ Small }
    ensures gpn { result ≡ gpn_shown (what_by what) (pages_of (P.stock parts.new).bays frame) }
    ensures pages { pages_of (P.stock parts.new).bays ≡ at_frame frame (brought_back (what_by what) entry.now words.now (pages_of (P.stock parts.old).bays frame)) (pages_of (P.stock parts.old).bays) }
    ensures locks { holders_of (P.stock parts.new).bays ≡ holders_of (P.stock parts.old).bays }
    ensures has { StillHas (P.stock parts.old) (P.stock parts.new) }
    ensures contexts { (P.stock parts.new).contexts ≡ (P.stock parts.old).contexts }
    ensures kept { P.kept parts.old parts.new }
{
    let slot = (frame % 512) as usize;
    let bay = parts.bay_mut(frame / 512);
    match what {
        What::GuestPage => {
            restore(&mut bay.memory, &mut bay.rmp, slot, entry, words);
            entry.gpn
        }
        What::MetadataPage => {
            metadata_in(&mut bay.memory, &mut bay.rmp, slot, words);
            0
        }
    }
}

// Writes the entry at a slot, or clears it; the root isn't in memory.
fn write_slot<P: Parts>(parts: &mut P, slot: &Slot, entry: &Option<MetaEntry>)
    requires has { HasSlot (slot_by slot.now) (P.stock parts.old) }
    ensures pages { pages_of (P.stock parts.new).bays ≡ with_slot_entry (slot_by slot.now) entry.now (pages_of (P.stock parts.old).bays) }
    ensures locks { holders_of (P.stock parts.new).bays ≡ holders_of (P.stock parts.old).bays }
    ensures has { StillHas (P.stock parts.old) (P.stock parts.new) }
    ensures contexts { (P.stock parts.new).contexts ≡ (P.stock parts.old).contexts }
    ensures kept { P.kept parts.old parts.new }
{
    match slot {
        Slot::OfEntry { metadata, number } => write_entry(parts, *metadata as u32, *number, entry),
        Slot::OfRoot => {}
    }
}

// Writes an entry of the metadata page of a frame, or clears it.
fn write_entry<P: Parts>(parts: &mut P, frame: u32, number: u8, entry: &Option<MetaEntry>)
    requires has { HasFrame (P.stock parts.old) frame }
    requires number_below { number < 64 }
    ensures pages { let page = pages_of (P.stock parts.old).bays frame in
        pages_of (P.stock parts.new).bays ≡ at_frame frame (with_words (entry_set page.words number entry.now) page) (pages_of (P.stock parts.old).bays) }
    ensures locks { holders_of (P.stock parts.new).bays ≡ holders_of (P.stock parts.old).bays }
    ensures has { StillHas (P.stock parts.old) (P.stock parts.new) }
    ensures contexts { (P.stock parts.new).contexts ≡ (P.stock parts.old).contexts }
    ensures kept { P.kept parts.old parts.new }
{
    let slot = (frame % 512) as usize;
    let bay = parts.bay_mut(frame / 512);
    bay.memory.whole();
    match entry {
        Some(entry) => set(&mut bay.memory, slot, number as usize, entry),
        None => clear(&mut bay.memory, slot, number as usize),
    }
}

// Releases the locks of the pages of a command that seals or opens one.
fn release_sealing<P: Parts>(parts: &mut P, number: u32, sealing: &Sealing)
    requires source_has { HasFrame (P.stock parts.old) sealing.now.source }
    requires target_has { HasFrame (P.stock parts.old) sealing.now.target }
    requires slot_has { HasSlot (slot_by sealing.now.slot) (P.stock parts.old) }
    requires source_below { sealing.now.source < 2 ^ 32 }
    requires target_below { sealing.now.target < 2 ^ 32 }
    requires holds { HoldsLocks number (sealing_locks sealing.now.source sealing.now.target (slot_by sealing.now.slot)) (P.stock parts.old) }
    ensures pages { pages_of (P.stock parts.new).bays ≡ pages_of (P.stock parts.old).bays }
    ensures locks { holders_of (P.stock parts.new).bays ≡ relocked number [] (holders_of (P.stock parts.old).bays) }
    ensures contexts { (P.stock parts.new).contexts ≡ (P.stock parts.old).contexts }
    ensures kept { P.kept parts.old parts.new }
{
    release(parts, sealing.source as u32 / 512, number);
    release(parts, sealing.target as u32 / 512, number);
    match sealing.slot {
        Slot::OfEntry {
            metadata,
            number: _,
        } => release(parts, metadata as u32 / 512, number),
        Slot::OfRoot => {}
    }
}
