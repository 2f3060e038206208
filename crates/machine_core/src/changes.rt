ghost use Rattle.std.specs.Prelude.{◌≡◌, ◌%◌, ◌<◌, List, None, Some};
ghost use Rattle.snp_model.specs.declared.entry.PageSize.TheVariants.{Small, Large};
ghost use Rattle.snp_model.specs.declared.event.Deed.{Deed};
ghost use Rattle.snp_model.specs.declared.scenario.GuestSpec.{GuestSpec};
ghost use Rattle.snp_model.specs.Accesses.{IsPlace, guest_verdict};
ghost use Rattle.snp_model.specs.Entries.{with_entry};
ghost use Rattle.snp_model.specs.Opening.{with_word_spec};
ghost use Rattle.snp_model.specs.State.{ActorPart};
ghost use Rattle.snp_model.specs.Step.{access_move};
ghost use Rattle.snp_model.specs.Verdicts.{host_verdict};
ghost use Rattle.machine_core.specs.Bays.{HasFrame, IsWholeRegion, facts_of, locks_of, view_on, words_of};
ghost use Rattle.machine_core.specs.Moves.{move_by};

use crate::parts::Parts;
use snp_model::{Op, Outcome, Place, RmpEntry};

/// A guest's access to a word of a frame, with its RMP check.
pub fn guest_access<P: Parts>(parts: &mut P, frame: u32, at: &Place, op: &Op) -> Outcome
    requires has { HasFrame (P.stock parts.old) frame }
    requires place { IsPlace at.now }
    requires slot { at.now.slot ≡ frame % 512 }
    ensures moves { (guests : List GuestSpec) (part : ActorPart) (deed : Deed) → let before = view_on (P.stock parts.old) guests in
        access_move before.contents part deed (guest_verdict (before.contents.pages frame).facts at.now op.now) op.now frame at.now.index
        ≡ move_by (record { deed = deed; outcome = Some result; lock = None }) (view_on (P.stock parts.new) guests) part.standing }
    ensures locks { locks_of (P.stock parts.new) ≡ locks_of (P.stock parts.old) }
    ensures contexts { (P.stock parts.new).contexts ≡ (P.stock parts.old).contexts }
    ensures kept { P.kept parts.old parts.new }
{
    let bay = parts.bay_mut(frame / 512);
    access_step::access(&mut bay.memory, &bay.rmp, at, op)
}

/// A hypervisor's access to a word of a frame, with its RMP check.
pub fn host_access<P: Parts>(parts: &mut P, frame: u32, index: u16, op: &Op) -> Outcome
    requires has { HasFrame (P.stock parts.old) frame }
    requires index { index < 512 }
    ensures moves { (guests : List GuestSpec) (part : ActorPart) (deed : Deed) → let before = view_on (P.stock parts.old) guests in
        access_move before.contents part deed (host_verdict (before.contents.pages frame).facts op.now) op.now frame index
        ≡ move_by (record { deed = deed; outcome = Some result; lock = None }) (view_on (P.stock parts.new) guests) part.standing }
    ensures locks { locks_of (P.stock parts.new) ≡ locks_of (P.stock parts.old) }
    ensures contexts { (P.stock parts.new).contexts ≡ (P.stock parts.old).contexts }
    ensures kept { P.kept parts.old parts.new }
{
    let bay = parts.bay_mut(frame / 512);
    let slot = (frame % 512) as usize;
    access_step::host_access(&mut bay.memory, &bay.rmp, slot, index as usize, op)
}

/// Sets a word of a frame.
pub fn set_word<P: Parts>(parts: &mut P, frame: u32, index: u16, value: u64)
    requires has { HasFrame (P.stock parts.old) frame }
    requires index { index < 512 }
    ensures words { words_of (P.stock parts.new).bays ≡ with_word_spec (record { frame = frame; index = index; value = value }) (words_of (P.stock parts.old).bays) }
    ensures facts { facts_of (P.stock parts.new).bays ≡ facts_of (P.stock parts.old).bays }
    ensures locks { locks_of (P.stock parts.new) ≡ locks_of (P.stock parts.old) }
    ensures contexts { (P.stock parts.new).contexts ≡ (P.stock parts.old).contexts }
    ensures kept { P.kept parts.old parts.new }
{
    let bay = parts.bay_mut(frame / 512);
    bay.memory
        .store((frame % 512) as usize, index as usize, value);
}

/// Sets the entry of a page, which begins at a frame: of 4 KB, where the frame is in no page of 2 MB, or of 2 MB, where the page
/// is a whole region.
pub fn set_entry<P: Parts>(parts: &mut P, frame: u32, entry: RmpEntry)
    requires has { HasFrame (P.stock parts.old) frame }
    requires small { entry.size ≡ Small → (facts_of (P.stock parts.old).bays frame).size ≡ Small }
    requires large { entry.size ≡ Large → IsWholeRegion (P.stock parts.old) frame entry }
    ensures facts { facts_of (P.stock parts.new).bays ≡ with_entry frame entry (facts_of (P.stock parts.old).bays) }
    ensures words { words_of (P.stock parts.new).bays ≡ words_of (P.stock parts.old).bays }
    ensures locks { locks_of (P.stock parts.new) ≡ locks_of (P.stock parts.old) }
    ensures contexts { (P.stock parts.new).contexts ≡ (P.stock parts.old).contexts }
    ensures kept { P.kept parts.old parts.new }
{
    let bay = parts.bay_mut(frame / 512);
    bay.rmp.whole();
    bay.rmp.write_entry((frame % 512) as usize, entry);
}
