ghost use Rattle.std.specs.Prelude.{◌≡◌, ◌<◌, ◌^◌, false, length, [], None, Some, IsSome};
ghost use Rattle.snp_model.specs.declared.entry.PageSize.TheVariants.{Large};
ghost use Rattle.snp_model.specs.declared.event.Deed.TheVariants.{Commit};
ghost use Rattle.snp_model.specs.declared.event.Outcome.TheVariants.{Status};
ghost use Rattle.snp_model.specs.InstructionStep.{smash_move};
ghost use Rattle.snp_model.specs.Locks.{page_lock};
ghost use Rattle.snp_model.specs.RmpUpdate.{is_bad_smash, pages_smashed};
ghost use Rattle.snp_model.specs.State.{nothing_taken};
ghost use Rattle.snp_model.specs.Touches.{instruction_touches};
ghost use Rattle.run_laws.specs.HeldLocks.{AreInstructionLocks, IsSmashLock};
ghost use Rattle.run_laws.specs.KeptLocks.{OwnsLocks, relocked};
ghost use Rattle.machine_core.specs.Bays.{HasFrame, HasTouched, contents_of, holders_of, locks_of, pages_of, view_on};
ghost use Rattle.machine_core.specs.Moves.{TakesPageAlone, lock_shown, locks_by, move_by, standing_by};
ghost use Rattle.machine_core.specs.Ranges.{HoldsLock, HoldsNone, IsTestedPage, smash_refused};

use crate::actor::ActorState;
use crate::parts::Parts;
use crate::shown::Shown;
use crate::taken_lock::TakenLock;
use rmp_update::{smash_commit, smash_lock, smash_region};
use snp_model::{Deed, GuestSpec, Outcome, PageSize, Refusal};

/// The next event of PSMASH, in memory of so many frames: the lock of the page of its frame, or the commit of what is
/// locked.
#[inline(never)]
pub fn smash_event<P: Parts>(
    parts: &mut P,
    number: u32,
    frames: u32,
    guests: &[GuestSpec],
    actor: &ActorState,
    frame: u64,
    shown: &mut Shown,
)
    requires has { HasTouched (instruction_touches (is_bad_smash frames frame) frame actor.now.standing.locks) (P.stock parts.old) }
    requires owns { OwnsLocks number actor.now (locks_of (P.stock parts.old)).holder }
    requires tested { AreInstructionLocks (IsSmashLock frames (contents_of (P.stock parts.old) guests.now) frame) actor.now.standing }
    ensures moves { smash_move frames (view_on (P.stock parts.old) guests.now) actor.now frame actor.now.standing.locks
        ≡ move_by shown.new (view_on (P.stock parts.new) guests.now) (standing_by shown.new actor.now.standing) }
    ensures contexts { (P.stock parts.new).contexts ≡ (P.stock parts.old).contexts }
    ensures page_alone { TakesPageAlone shown.new.lock }
    ensures locks { (locks_of (P.stock parts.new)).holder ≡ relocked number (locks_by shown.new actor.now.standing) (locks_of (P.stock parts.old)).holder }
    ensures room { IsSome shown.new.lock → length actor.now.standing.locks < 3 }
    ensures kept { P.kept parts.old parts.new }
{
    if actor.has_locked() {
        commit_page(parts, number, frame, shown)
    } else {
        lock_page(parts, number, frames, frame, shown)
    }
}

// The lock of the page of the frame, with its tests.
fn lock_page<P: Parts>(parts: &mut P, number: u32, frames: u32, frame: u64, shown: &mut Shown)
    requires has { is_bad_smash frames frame ≡ false → HasFrame (P.stock parts.old) frame }
    requires none { HoldsNone number (P.stock parts.old) }
    ensures shown { shown.new ≡ lock_shown (page_lock (pages_of (P.stock parts.old).bays frame).facts.size frame) (smash_refused frames frame (P.stock parts.old)) }
    ensures pages { pages_of (P.stock parts.new).bays ≡ pages_of (P.stock parts.old).bays }
    ensures contexts { (P.stock parts.new).contexts ≡ (P.stock parts.old).contexts }
    ensures page_alone { TakesPageAlone shown.new.lock }
    ensures locks { holders_of (P.stock parts.new).bays ≡ relocked number (locks_by shown.new nothing_taken) (holders_of (P.stock parts.old).bays) }
    ensures kept { P.kept parts.old parts.new }
{
    match smash_region(frame, frames) {
        Err(status) => *shown = Shown::refused(frame, Refusal::Status(status)),
        Ok(region) => {
            let bay = parts.bay_mut(region);
            match smash_lock(&mut bay.rmp, number) {
                Err(refusal) => *shown = Shown::refused(frame, refusal),
                Ok(()) => *shown = Shown::locked(page_taken(frame)),
            }
        }
    }
}

// The commit of the locked page, which releases the lock. It names the frame with the guest page number that it had.
fn commit_page<P: Parts>(parts: &mut P, number: u32, frame: u64, shown: &mut Shown)
    requires has { HasFrame (P.stock parts.old) frame }
    requires holds { HoldsLock number (page_lock Large frame) (P.stock parts.old) }
    requires tested { IsTestedPage frame (P.stock parts.old) }
    ensures shown { shown.new ≡ record { deed = Commit frame (pages_of (P.stock parts.old).bays frame).facts.gpn Large; outcome = Some (Status 0); lock = None } }
    ensures pages { pages_of (P.stock parts.new).bays ≡ pages_smashed (page_lock Large frame) (pages_of (P.stock parts.old).bays) }
    ensures contexts { (P.stock parts.new).contexts ≡ (P.stock parts.old).contexts }
    ensures page_alone { TakesPageAlone shown.new.lock }
    ensures locks { holders_of (P.stock parts.new).bays ≡ relocked number [] (holders_of (P.stock parts.old).bays) }
    ensures kept { P.kept parts.old parts.new }
{
    let frame = frame as u32;
    let bay = parts.bay_mut(frame / 512);
    let gpn = bay.rmp.effective(0).gpn;
    smash_commit(&mut bay.rmp, number);
    let deed = Deed::Commit {
        frame,
        gpn,
        size: PageSize::Large,
    };
    *shown = Shown::last(deed, Outcome::Status(0));
}

// The lock that the page's lock event takes: that of a page of 2 MB.
fn page_taken(frame: u64) -> TakenLock
    requires { frame < 2 ^ 32 }
    ensures { result ≡ record { frame = frame; base = frame; count = 512 } }
{
    let frame = frame as u32;
    TakenLock {
        frame,
        base: frame,
        count: 512,
    }
}
