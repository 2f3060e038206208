ghost use Rattle.std.specs.Prelude.{◌≡◌, ◌<◌, ◌^◌, false, length, [], None, Some, IsSome};
ghost use Rattle.snp_model.specs.declared.event.Deed.TheVariants.{Commit};
ghost use Rattle.snp_model.specs.declared.event.Outcome.TheVariants.{Status};
ghost use Rattle.snp_model.specs.Facts.{frames_in};
ghost use Rattle.snp_model.specs.InstructionStep.{update_move};
ghost use Rattle.snp_model.specs.RmpUpdate.{is_bad_update, pages_updated, update_lock};
ghost use Rattle.snp_model.specs.State.{nothing_taken};
ghost use Rattle.snp_model.specs.Touches.{instruction_touches};
ghost use Rattle.run_laws.specs.HeldLocks.{AreInstructionLocks, IsUpdateLock};
ghost use Rattle.run_laws.specs.KeptLocks.{OwnsLocks, relocked};
ghost use Rattle.machine_core.specs.Bays.{HasFrame, HasTouched, contents_of, holders_of, locks_of, pages_of, view_on};
ghost use Rattle.machine_core.specs.Moves.{TakesPageAlone, lock_shown, locks_by, move_by, standing_by};
ghost use Rattle.machine_core.specs.Ranges.{HoldsLock, HoldsNone, IsTestedRange, update_refused};

use crate::actor::ActorState;
use crate::parts::Parts;
use crate::shown::Shown;
use crate::taken_lock::TakenLock;
use rmp_update::{update_commit, update_lock, update_region};
use snp_model::{Deed, GuestSpec, Outcome, PageSize, Refusal, Update};

/// The next event of RMPUPDATE, in memory of so many frames: the lock of its range, or the commit of what is locked.
pub fn update_event<P: Parts>(
    parts: &mut P,
    number: u32,
    frames: u32,
    guests: &[GuestSpec],
    actor: &ActorState,
    update: &Update,
    shown: &mut Shown,
)
    requires has { HasTouched (instruction_touches (is_bad_update frames update.now) update.now.frame actor.now.standing.locks) (P.stock parts.old) }
    requires owns { OwnsLocks number actor.now (locks_of (P.stock parts.old)).holder }
    requires tested { AreInstructionLocks (IsUpdateLock frames (contents_of (P.stock parts.old) guests.now) update.now) actor.now.standing }
    ensures moves { update_move frames (view_on (P.stock parts.old) guests.now) actor.now update.now actor.now.standing.locks
        ≡ move_by shown.new (view_on (P.stock parts.new) guests.now) (standing_by shown.new actor.now.standing) }
    ensures contexts { (P.stock parts.new).contexts ≡ (P.stock parts.old).contexts }
    ensures page_alone { TakesPageAlone shown.new.lock }
    ensures locks { (locks_of (P.stock parts.new)).holder ≡ relocked number (locks_by shown.new actor.now.standing) (locks_of (P.stock parts.old)).holder }
    ensures room { IsSome shown.new.lock → length actor.now.standing.locks < 3 }
    ensures kept { P.kept parts.old parts.new }
{
    if actor.has_locked() {
        commit_range(parts, number, update, shown)
    } else {
        lock_range(parts, number, frames, update, shown)
    }
}

// The lock of the range, with its tests.
fn lock_range<P: Parts>(parts: &mut P, number: u32, frames: u32, update: &Update, shown: &mut Shown)
    requires has { is_bad_update frames update.now ≡ false → HasFrame (P.stock parts.old) update.now.frame }
    requires none { HoldsNone number (P.stock parts.old) }
    ensures shown { shown.new ≡ lock_shown (update_lock update.now) (update_refused frames update.now (P.stock parts.old)) }
    ensures pages { pages_of (P.stock parts.new).bays ≡ pages_of (P.stock parts.old).bays }
    ensures contexts { (P.stock parts.new).contexts ≡ (P.stock parts.old).contexts }
    ensures page_alone { TakesPageAlone shown.new.lock }
    ensures locks { holders_of (P.stock parts.new).bays ≡ relocked number (locks_by shown.new nothing_taken) (holders_of (P.stock parts.old).bays) }
    ensures kept { P.kept parts.old parts.new }
{
    match update_region(update, frames) {
        Err(status) => *shown = Shown::refused(update.frame, Refusal::Status(status)),
        Ok(region) => {
            let bay = parts.bay_mut(region);
            match update_lock(&mut bay.rmp, update, number) {
                Err(refusal) => *shown = Shown::refused(update.frame, refusal),
                Ok(()) => *shown = Shown::locked(range_taken(update)),
            }
        }
    }
}

// The commit of the locked range, which releases the lock.
fn commit_range<P: Parts>(parts: &mut P, number: u32, update: &Update, shown: &mut Shown)
    requires has { HasFrame (P.stock parts.old) update.now.frame }
    requires holds { HoldsLock number (update_lock update.now) (P.stock parts.old) }
    requires tested { IsTestedRange update.now (P.stock parts.old) }
    ensures shown { shown.new ≡ record { deed = Commit update.now.frame update.now.gpn update.now.size; outcome = Some (Status 0); lock = None } }
    ensures pages { pages_of (P.stock parts.new).bays ≡ pages_updated update.now (update_lock update.now) (pages_of (P.stock parts.old).bays) }
    ensures contexts { (P.stock parts.new).contexts ≡ (P.stock parts.old).contexts }
    ensures page_alone { TakesPageAlone shown.new.lock }
    ensures locks { holders_of (P.stock parts.new).bays ≡ relocked number [] (holders_of (P.stock parts.old).bays) }
    ensures kept { P.kept parts.old parts.new }
{
    let frame = update.frame as u32;
    let bay = parts.bay_mut(frame / 512);
    update_commit(&mut bay.memory, &mut bay.rmp, update, number);
    let deed = Deed::Commit {
        frame,
        gpn: update.gpn,
        size: update.size,
    };
    *shown = Shown::last(deed, Outcome::Status(0));
}

// The lock that the range's lock event takes.
fn range_taken(update: &Update) -> TakenLock
    requires { update.now.frame < 2 ^ 32 }
    ensures { result ≡ record { frame = update.now.frame; base = update.now.frame; count = frames_in update.now.size } }
{
    let frame = update.frame as u32;
    TakenLock {
        frame,
        base: frame,
        count: frames_in(update.size),
    }
}

// How many frames a page has.
fn frames_in(size: PageSize) -> u32
    ensures { result ≡ frames_in size }
{
    match size {
        PageSize::Small => 1,
        PageSize::Large => 512,
    }
}
