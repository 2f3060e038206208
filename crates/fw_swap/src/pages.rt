ghost use Rattle.std.specs.Prelude.{◌≡◌, ◌<◌, IsSome};
ghost use Rattle.snp_model.specs.declared.entry.PageSize.TheVariants.{Small};
ghost use Rattle.snp_model.specs.Entries.{facts_at, holder_at, region_pages};
ghost use Rattle.snp_model.specs.FirmwareCommits.{at_frame, metadata_in, metadata_out, released, restored};

use phys_memory::Region;
use rmp_table::RmpRegion;
use snp_model::{Kind, MetaEntry, RmpEntry};

/// Releases a page of 4 KB that was sealed, in a frame that some actor has locked: it becomes Reclaim with zero words. The
/// locks and all other frames stay.
pub fn release(memory: &mut Region, rmp: &mut RmpRegion, slot: usize)
    requires slot_below { slot < 512 }
    requires locked { IsSome (holder_at rmp.old slot) }
    requires small { (facts_at rmp.old slot).size ≡ Small }
    ensures pages { region_pages memory.new rmp.new ≡ at_frame slot (released (region_pages memory.old rmp.old slot)) (region_pages memory.old rmp.old) }
    ensures locks { rmp.new.holders ≡ rmp.old.holders }
{
    memory.whole();
    let entry = RmpEntry {
        validated: false,
        immutable: false,
        gpn: 0,
        asid: 0,
        vmsa: false,
        perms: [0; 4],
        kind: Kind::Plain,
        ..rmp.effective(slot)
    };
    rmp.write_entry(slot, entry);
    memory.page_fill(slot, 0);
}

/// Restores a page that was opened, into a frame of 4 KB that some actor has locked: the frame gets the words, and the
/// entry's guest page number, Validated, VMSA and permissions, with Immutable. The locks and all other frames stay.
pub fn restore(
    memory: &mut Region,
    rmp: &mut RmpRegion,
    slot: usize,
    entry: &MetaEntry,
    words: &[u64; 512],
)
    requires slot_below { slot < 512 }
    requires locked { IsSome (holder_at rmp.old slot) }
    requires small { (facts_at rmp.old slot).size ≡ Small }
    ensures pages { region_pages memory.new rmp.new ≡ at_frame slot (restored entry.now words.now (region_pages memory.old rmp.old slot)) (region_pages memory.old rmp.old) }
    ensures locks { rmp.new.holders ≡ rmp.old.holders }
{
    memory.whole();
    let perms = entry.perms;
    let restored = RmpEntry {
        immutable: true,
        gpn: entry.gpn,
        validated: entry.validated,
        vmsa: entry.vmsa,
        perms,
        ..rmp.effective(slot)
    };
    rmp.write_entry(slot, restored);
    memory.page_copy_in(slot, words);
}

/// Releases a metadata page that was sealed, in a frame of 4 KB that some actor has locked: it becomes a Firmware page with
/// zero words. The locks and all other frames stay.
pub fn metadata_out(memory: &mut Region, rmp: &mut RmpRegion, slot: usize)
    requires slot_below { slot < 512 }
    requires locked { IsSome (holder_at rmp.old slot) }
    requires small { (facts_at rmp.old slot).size ≡ Small }
    ensures pages { region_pages memory.new rmp.new ≡ at_frame slot (metadata_out (region_pages memory.old rmp.old slot)) (region_pages memory.old rmp.old) }
    ensures locks { rmp.new.holders ≡ rmp.old.holders }
{
    memory.whole();
    let entry = RmpEntry {
        kind: Kind::Firmware,
        ..rmp.effective(slot)
    };
    rmp.write_entry(slot, entry);
    memory.page_fill(slot, 0);
}

/// Restores a metadata page that was opened, into a frame of 4 KB that some actor has locked: it becomes a Metadata page with
/// the words. The locks and all other frames stay.
pub fn metadata_in(memory: &mut Region, rmp: &mut RmpRegion, slot: usize, words: &[u64; 512])
    requires slot_below { slot < 512 }
    requires locked { IsSome (holder_at rmp.old slot) }
    requires small { (facts_at rmp.old slot).size ≡ Small }
    ensures pages { region_pages memory.new rmp.new ≡ at_frame slot (metadata_in words.now (region_pages memory.old rmp.old slot)) (region_pages memory.old rmp.old) }
    ensures locks { rmp.new.holders ≡ rmp.old.holders }
{
    memory.whole();
    let entry = RmpEntry {
        kind: Kind::Metadata,
        ..rmp.effective(slot)
    };
    rmp.write_entry(slot, entry);
    memory.page_copy_in(slot, words);
}
