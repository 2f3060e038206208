ghost use Rattle.std.specs.Prelude.{◌≡◌, [], ◌∷◌, None, Some, IsSome};
ghost use Rattle.snp_model.specs.declared.entry.PageSize.TheVariants.{Small};
ghost use Rattle.snp_model.specs.declared.event.Outcome.TheVariants.{Firmware};
ghost use Rattle.snp_model.specs.Firmware.{success};
ghost use Rattle.snp_model.specs.FirmwareCommits.{at_frame, placed, taken};
ghost use Rattle.snp_model.specs.FirmwareStep.{pages_moved, small_shown};
ghost use Rattle.snp_model.specs.Locks.{page_lock};
ghost use Rattle.run_laws.specs.KeptLocks.{relocked};
ghost use Rattle.machine_core.specs.Bays.{HasFrame, holders_of, pages_of};
ghost use Rattle.machine_core.specs.CommandPages.{HoldsLocks, IsTestedFrame, StillHas};

use crate::parts::Parts;
use crate::release::release;
use crate::shown::Shown;
use fw_move::{place, take};
use snp_model::{Deed, Outcome, PageSize, RmpEntry};

/// The commit of SNP_PAGE_MOVE, which releases the locks of its two pages: the target gets the page of the source, which is
/// left Pre-Guest with zero words. It names the target with the guest page number that it has then. `words` is a place for
/// the words of one page; what it holds afterwards doesn't matter.
pub fn commit_move<P: Parts>(
    parts: &mut P,
    number: u32,
    source: u64,
    target: u64,
    words: &mut [u64; 512],
    shown: &mut Shown,
)
    requires source_has { HasFrame (P.stock parts.old) source }
    requires target_has { HasFrame (P.stock parts.old) target }
    requires source_tested { IsTestedFrame source (P.stock parts.old) }
    requires target_tested { IsTestedFrame target (P.stock parts.old) }
    requires holds { HoldsLocks number (page_lock Small source ∷ page_lock Small target ∷ []) (P.stock parts.old) }
    ensures shown { shown.new ≡ record { deed = small_shown target (pages_of (P.stock parts.new).bays target).facts.gpn; outcome = Some (Firmware success); lock = None } }
    ensures pages { pages_of (P.stock parts.new).bays ≡ pages_moved source target (pages_of (P.stock parts.old).bays) }
    ensures locks { holders_of (P.stock parts.new).bays ≡ relocked number [] (holders_of (P.stock parts.old).bays) }
    ensures contexts { (P.stock parts.new).contexts ≡ (P.stock parts.old).contexts }
    ensures kept { P.kept parts.old parts.new }
{
    let source = source as u32;
    let target = target as u32;
    let moved = take_out(parts, source, words);
    put_in(parts, target, &moved, words);
    release(parts, source / 512, number);
    release(parts, target / 512, number);
    let deed = Deed::Commit {
        frame: target,
        gpn: moved.gpn,
        size: PageSize::Small,
    };
    *shown = Shown::last(deed, Outcome::Firmware(0));
}

// Takes the page of the locked source out of its frame: gives its entry, and its words in `words`.
fn take_out<P: Parts>(parts: &mut P, frame: u32, words: &mut [u64; 512]) -> RmpEntry
    requires has { HasFrame (P.stock parts.old) frame }
    requires locked { IsSome (holders_of (P.stock parts.old).bays frame) }
    requires small { (pages_of (P.stock parts.old).bays frame).facts.size ≡ Small }
    ensures entry { result ≡ (pages_of (P.stock parts.old).bays frame).facts }
    ensures words { words.new ≡ (pages_of (P.stock parts.old).bays frame).words }
    ensures pages { pages_of (P.stock parts.new).bays ≡ at_frame frame (taken (pages_of (P.stock parts.old).bays frame)) (pages_of (P.stock parts.old).bays) }
    ensures locks { holders_of (P.stock parts.new).bays ≡ holders_of (P.stock parts.old).bays }
    ensures has { StillHas (P.stock parts.old) (P.stock parts.new) }
    ensures contexts { (P.stock parts.new).contexts ≡ (P.stock parts.old).contexts }
    ensures kept { P.kept parts.old parts.new }
{
    let slot = (frame % 512) as usize;
    let bay = parts.bay_mut(frame / 512);
    take(&mut bay.memory, &mut bay.rmp, slot, words)
}

// Puts a page that was taken out into the frame of the locked target.
fn put_in<P: Parts>(parts: &mut P, frame: u32, moved: &RmpEntry, words: &[u64; 512])
    requires has { HasFrame (P.stock parts.old) frame }
    requires locked { IsSome (holders_of (P.stock parts.old).bays frame) }
    requires small { (pages_of (P.stock parts.old).bays frame).facts.size ≡ Small }
    requires moved_small { moved.now.size ≡ Small }
    ensures pages { pages_of (P.stock parts.new).bays ≡ at_frame frame (placed moved.now words.now) (pages_of (P.stock parts.old).bays) }
    ensures locks { holders_of (P.stock parts.new).bays ≡ holders_of (P.stock parts.old).bays }
    ensures has { StillHas (P.stock parts.old) (P.stock parts.new) }
    ensures contexts { (P.stock parts.new).contexts ≡ (P.stock parts.old).contexts }
    ensures kept { P.kept parts.old parts.new }
{
    let slot = (frame % 512) as usize;
    let bay = parts.bay_mut(frame / 512);
    place(&mut bay.memory, &mut bay.rmp, slot, *moved, words);
}
