ghost use Rattle.std.specs.Prelude.{◌≡◌, ◌↔◌, ◌<◌, IsTrue, IsSome};
ghost use Rattle.snp_model.specs.declared.entry.Kind.TheVariants.{Context};
ghost use Rattle.snp_model.specs.declared.entry.PageSize.{PageSize};
ghost use Rattle.snp_model.specs.declared.entry.PageSize.TheVariants.{Small};
ghost use Rattle.snp_model.specs.Entries.{IsTable, facts_at, holder_at, region_pages};
ghost use Rattle.snp_model.specs.Facts.{page_base};
ghost use Rattle.snp_model.specs.FirmwareCommits.{at_frame, metadata_page, given_back_facts, reclaimed_page, released};
ghost use Rattle.snp_model.specs.Locks.{over_lock, page_lock};
ghost use Rattle.snp_model.specs.RegionWords.{page_at};
ghost use Rattle.snp_model.specs.State.{Page, zero_words};

use phys_memory::Region;
use rmp_table::RmpRegion;
use snp_model::{Kind, PageSize, RmpEntry};

/// Makes a Metadata page with zero words of a page of 4 KB that some actor has locked. The locks and all other frames stay.
pub fn md_commit(memory: &mut Region, rmp: &mut RmpRegion, slot: usize)
    requires slot_below { slot < 512 }
    requires locked { IsSome (holder_at rmp.old slot) }
    requires small { (facts_at rmp.old slot).size ≡ Small }
    ensures pages { region_pages memory.new rmp.new ≡ at_frame slot (metadata_page (region_pages memory.old rmp.old slot)) (region_pages memory.old rmp.old) }
    ensures locks { rmp.new.holders ≡ rmp.old.holders }
{
    memory.whole();
    let entry = RmpEntry {
        kind: Kind::Metadata,
        ..rmp.effective(slot)
    };
    rmp.write_entry(slot, entry);
    memory.page_fill(slot, 0);
}

/// Takes back the page in which a frame stands, of 4 KB or of 2 MB, which some actor has locked: a Firmware or Metadata page
/// becomes Reclaim with zero words, and one of a guest that is immutable isn't any more, and keeps its words. A page in any
/// other state stays. The locks and all other frames stay.
pub fn reclaim_commit(memory: &mut Region, rmp: &mut RmpRegion, slot: usize)
    requires slot_below { slot < 512 }
    requires locked { IsSome (holder_at rmp.old slot) }
    ensures pages { region_pages memory.new rmp.new ≡ over_lock (page_lock (facts_at rmp.old slot).size slot) reclaimed_page (region_pages memory.old rmp.old) }
    ensures locks { rmp.new.holders ≡ rmp.old.holders }
{
    rmp.whole();
    let entry = rmp.page_entry(slot);
    if !entry.assigned || !entry.immutable {
        return;
    }
    if entry.asid != 0 {
        give_back(rmp, slot, &entry);
    } else if !is_context(entry.kind) {
        release(memory, rmp, slot, &entry);
    }
}

// Whether a page holds a guest's context.
fn is_context(kind: Kind) -> bool
    ensures { IsTrue result ↔ (kind ≡ Context) }
{
    matches!(kind, Kind::Context)
}

// A page of a guest isn't immutable any more.
fn give_back(rmp: &mut RmpRegion, slot: usize, entry: &RmpEntry)
    requires slot_below { slot < 512 }
    requires entry { entry.now ≡ facts_at rmp.old (page_base (facts_at rmp.old slot).size slot) }
    requires size { entry.now.size ≡ (facts_at rmp.old slot).size }
    ensures facts { facts_at rmp.new ≡ over_lock (page_lock (facts_at rmp.old slot).size slot) given_back_facts (facts_at rmp.old) }
    ensures locks { rmp.new.holders ≡ rmp.old.holders }
{
    rmp.whole();
    let given_back = RmpEntry {
        immutable: false,
        ..*entry
    };
    rmp.write_page(slot, given_back);
}

// A page becomes Reclaim with zero words.
fn release(memory: &mut Region, rmp: &mut RmpRegion, slot: usize, entry: &RmpEntry)
    requires slot_below { slot < 512 }
    requires entry { entry.now ≡ facts_at rmp.old (page_base (facts_at rmp.old slot).size slot) }
    requires size { entry.now.size ≡ (facts_at rmp.old slot).size }
    ensures pages { region_pages memory.new rmp.new ≡ over_lock (page_lock (facts_at rmp.old slot).size slot) released (region_pages memory.old rmp.old) }
    ensures locks { rmp.new.holders ≡ rmp.old.holders }
{
    rmp.whole();
    let reclaimed = RmpEntry {
        validated: false,
        immutable: false,
        gpn: 0,
        asid: 0,
        vmsa: false,
        perms: [0; 4],
        kind: Kind::Plain,
        ..*entry
    };
    rmp.write_page(slot, reclaimed);
    empty(memory, entry.size, slot);
}

// Fills the page of a frame with zero words.
fn empty(memory: &mut Region, size: PageSize, slot: usize)
    requires { slot < 512 }
    ensures { page_at memory.new ≡ over_lock (page_lock size slot) (λ words. zero_words) (page_at memory.old) }
{
    memory.whole();
    match size {
        PageSize::Small => memory.page_fill(slot, 0),
        PageSize::Large => {
            'frames: for frame in 0..512 {
                memory.page_fill(frame, 0);
            }
        }
    }
}
