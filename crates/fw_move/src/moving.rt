ghost use Rattle.std.specs.Prelude.{◌≡◌, ◌<◌, IsSome};
ghost use Rattle.snp_model.specs.declared.entry.PageSize.TheVariants.{Small};
ghost use Rattle.snp_model.specs.Entries.{facts_at, holder_at, region_pages};
ghost use Rattle.snp_model.specs.FirmwareCommits.{at_frame, placed, taken};
ghost use Rattle.snp_model.specs.RegionWords.{page_at};

use phys_memory::Region;
use rmp_table::RmpRegion;
use snp_model::RmpEntry;

/// Takes a page of 4 KB out of its frame, which some actor has locked: gives its entry, and its words in `words`. The frame
/// becomes Pre-Guest, with its guest page number and zero words. The locks and all other frames stay.
pub fn take(
    memory: &mut Region,
    rmp: &mut RmpRegion,
    slot: usize,
    words: &mut [u64; 512],
) -> RmpEntry
    requires slot_below { slot < 512 }
    requires locked { IsSome (holder_at rmp.old slot) }
    requires small { (facts_at rmp.old slot).size ≡ Small }
    ensures entry { result ≡ facts_at rmp.old slot }
    ensures words { words.new ≡ page_at memory.old slot }
    ensures pages { region_pages memory.new rmp.new ≡ at_frame slot (taken (region_pages memory.old rmp.old slot)) (region_pages memory.old rmp.old) }
    ensures locks { rmp.new.holders ≡ rmp.old.holders }
{
    memory.whole();
    let moved = rmp.effective(slot);
    memory.page_copy_out(slot, words);
    let left = RmpEntry {
        vmsa: false,
        validated: false,
        perms: [15, 0, 0, 0],
        ..moved
    };
    rmp.write_entry(slot, left);
    memory.page_fill(slot, 0);
    moved
}

/// Puts a page of 4 KB, as `take` gave it, into a frame that some actor has locked. The locks and all other frames stay.
pub fn place(
    memory: &mut Region,
    rmp: &mut RmpRegion,
    slot: usize,
    moved: RmpEntry,
    words: &[u64; 512],
)
    requires slot_below { slot < 512 }
    requires locked { IsSome (holder_at rmp.old slot) }
    requires small { (facts_at rmp.old slot).size ≡ Small }
    requires moved_small { moved.size ≡ Small }
    ensures pages { region_pages memory.new rmp.new ≡ at_frame slot (placed moved words.now) (region_pages memory.old rmp.old) }
    ensures locks { rmp.new.holders ≡ rmp.old.holders }
{
    memory.whole();
    rmp.write_entry(slot, moved);
    memory.page_copy_in(slot, words);
}
