ghost use Rattle.std.specs.Prelude.{◌≡◌, ◌<◌, ◌^◌, [], None, Some};
ghost use Rattle.snp_model.specs.declared.event.Outcome.TheVariants.{Firmware};
ghost use Rattle.snp_model.specs.Firmware.{success};
ghost use Rattle.snp_model.specs.FirmwareCommits.{reclaimed_page};
ghost use Rattle.snp_model.specs.FirmwareStep.{page_shown};
ghost use Rattle.snp_model.specs.Locks.{over_lock, page_lock};
ghost use Rattle.run_laws.specs.KeptLocks.{relocked};
ghost use Rattle.machine_core.specs.Bays.{HasFrame, holders_of, pages_of};
ghost use Rattle.machine_core.specs.Ranges.{HoldsLock};

use crate::parts::Parts;
use crate::shown::Shown;
use fw_reclaim::reclaim_commit;
use snp_model::{Deed, Outcome};

/// The commit of SNP_PAGE_RECLAIM, which releases the lock: the page in which the frame stands, of 4 KB or of 2 MB, is taken
/// back. It names the frame with the guest page number and the size that it had.
pub fn commit_reclaim<P: Parts>(parts: &mut P, number: u32, frame: u64, shown: &mut Shown)
    requires has { HasFrame (P.stock parts.old) frame }
    requires below { frame < 2 ^ 32 }
    requires holds { HoldsLock number (page_lock (pages_of (P.stock parts.old).bays frame).facts.size frame) (P.stock parts.old) }
    ensures shown { shown.new ≡ record { deed = page_shown frame (pages_of (P.stock parts.old).bays frame); outcome = Some (Firmware success); lock = None } }
    ensures pages { let lock = page_lock (pages_of (P.stock parts.old).bays frame).facts.size frame in
        pages_of (P.stock parts.new).bays ≡ over_lock lock reclaimed_page (pages_of (P.stock parts.old).bays) }
    ensures locks { holders_of (P.stock parts.new).bays ≡ relocked number [] (holders_of (P.stock parts.old).bays) }
    ensures contexts { (P.stock parts.new).contexts ≡ (P.stock parts.old).contexts }
    ensures kept { P.kept parts.old parts.new }
{
    let frame = frame as u32;
    let slot = (frame % 512) as usize;
    let bay = parts.bay_mut(frame / 512);
    let entry = bay.rmp.effective(slot);
    reclaim_commit(&mut bay.memory, &mut bay.rmp, slot);
    bay.rmp.unlock(number);
    let deed = Deed::Commit {
        frame,
        gpn: entry.gpn,
        size: entry.size,
    };
    *shown = Shown::last(deed, Outcome::Firmware(0));
}
