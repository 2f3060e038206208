ghost use Rattle.std.specs.Prelude.{◌≡◌, ◌%◌, ◌<◌, ◌^◌, length, [], None, Some, IsSome};
ghost use Rattle.snp_model.specs.declared.event.Deed.TheVariants.{Commit};
ghost use Rattle.snp_model.specs.declared.event.Outcome.TheVariants.{Carry};
ghost use Rattle.snp_model.specs.Accesses.{IsPlace};
ghost use Rattle.snp_model.specs.Bounds.{IsCpu, IsGuestInside};
ghost use Rattle.snp_model.specs.InstructionStep.{cpu_validate, page_lookup, validate_begin, validate_move};
ghost use Rattle.snp_model.specs.Locks.{page_lock};
ghost use Rattle.snp_model.specs.State.{nothing_taken};
ghost use Rattle.snp_model.specs.Touches.{walk_touches, with_locks};
ghost use Rattle.snp_model.specs.Validation.{carry, pages_validated, validate_refusal};
ghost use Rattle.snp_model.specs.Walking.{guest_stands, guest_words};
ghost use Rattle.run_laws.specs.HeldLocks.{AreInstructionLocks, IsWalkedLock, validate_test};
ghost use Rattle.run_laws.specs.KeptLocks.{OwnsLocks, relocked};
ghost use Rattle.machine_core.specs.Actors.{IsBegun};
ghost use Rattle.machine_core.specs.Bays.{HasFrame, HasTouched, contents_of, holders_of, locks_of, pages_of, view_on};
ghost use Rattle.machine_core.specs.Moves.{TakesPageAlone, lock_shown, locks_by, move_by, processor_of, standing_by};
ghost use Rattle.machine_core.specs.Ranges.{HoldsLock, HoldsNone, IsLockOfPage, page_refused};

use crate::actor::ActorState;
use crate::cpu::{Arrived, Processor, Walker, walk};
use crate::page::{is_page_address, page_place, page_taken};
use crate::parts::Parts;
use crate::shown::Shown;
use crate::walking::page_lookup;
use rmp_validate::{validate_commit, validate_lock};
use snp_model::{Deed, GuestEnd, GuestSpec, Outcome, PageSize, Place};

/// The operands of PVALIDATE: the page at a virtual address, and what its Validated is to be.
#[derive(Clone, Copy)]
pub struct Validation {
    pub address: u64,
    pub size: PageSize,
    pub validate: bool,
}

/// The next event of PVALIDATE of a guest's processor, in memory of so many frames: one of its walks, the lock of the page
/// to which they have come, or the commit of what is locked.
#[inline(never)]
pub fn validate_event<P: Parts>(
    parts: &mut P,
    number: u32,
    frames: u32,
    guests: &[GuestSpec],
    actor: &ActorState,
    cpu: Processor,
    ask: &Validation,
    stands: GuestEnd,
    shown: &mut Shown,
)
    requires cpu { IsCpu frames (length guests.now) cpu.guest cpu.vmpl cpu.npt cpu.paging }
    requires stands { IsBegun actor.now.deeds → stands ≡ guest_stands cpu.paging (page_lookup ask.now.address) (guest_words actor.now.deeds) }
    requires inside { IsGuestInside stands }
    requires has { HasTouched (with_locks actor.now.standing.locks (walk_touches frames (processor_of cpu) (page_lookup ask.now.address) actor.now.deeds)) (P.stock parts.old) }
    requires owns { OwnsLocks number actor.now (locks_of (P.stock parts.old)).holder }
    requires tested { AreInstructionLocks (IsWalkedLock frames guests.now (contents_of (P.stock parts.old) guests.now) (processor_of cpu) ask.now.address (validate_test ask.now.size) actor.now.deeds) actor.now.standing }
    ensures moves { cpu_validate frames guests.now (view_on (P.stock parts.old) guests.now) actor.now (processor_of cpu) ask.now.address ask.now.size ask.now.validate
        ≡ move_by shown.new (view_on (P.stock parts.new) guests.now) (standing_by shown.new actor.now.standing) }
    ensures contexts { (P.stock parts.new).contexts ≡ (P.stock parts.old).contexts }
    ensures page_alone { TakesPageAlone shown.new.lock }
    ensures locks { (locks_of (P.stock parts.new)).holder ≡ relocked number (locks_by shown.new actor.now.standing) (locks_of (P.stock parts.old)).holder }
    ensures room { IsSome shown.new.lock → length actor.now.standing.locks < 3 }
    ensures kept { P.kept parts.old parts.new }
{
    let walker = Walker {
        cpu,
        lookup: page_lookup(ask.address),
    };
    let refusal = validate_begin(cpu, ask);
    match walk(
        parts, frames, guests, actor, &walker, refusal, stands, shown,
    ) {
        None => {}
        Some(at) => validate_page(parts, number, guests, actor, cpu, &at, ask, shown),
    }
}

// What it is refused with as it begins: VMPL0 alone has it.
#[tactic(auto, unfolding(snp_model::specs::InstructionStep::validate_begin))]
fn validate_begin(cpu: Processor, ask: &Validation) -> Option<Outcome>
    ensures { result ≡ validate_begin (processor_of cpu) ask.now.address ask.now.size }
{
    if cpu.vmpl != 0 {
        Some(Outcome::Gp)
    } else if !is_page_address(ask.size, ask.address) {
        Some(Outcome::Status(1))
    } else {
        None
    }
}

// The next event where its walks have come to a page: the lock of the page, or the commit.
fn validate_page<P: Parts>(
    parts: &mut P,
    number: u32,
    guests: &[GuestSpec],
    actor: &ActorState,
    cpu: Processor,
    at: &Arrived,
    ask: &Validation,
    shown: &mut Shown,
)
    requires guest { 0 < cpu.guest }
    requires vmpl { cpu.vmpl < 4 }
    requires gpn { at.now.gpn < 2 ^ 36 }
    requires has { HasFrame (P.stock parts.old) at.now.frame }
    requires owns { OwnsLocks number actor.now (locks_of (P.stock parts.old)).holder }
    requires tested { AreInstructionLocks (IsLockOfPage (P.stock parts.old) at.now.frame) actor.now.standing }
    ensures moves { validate_move guests.now (view_on (P.stock parts.old) guests.now) actor.now (processor_of cpu) ask.now.size ask.now.validate actor.now.standing.locks at.now.gpn at.now.private at.now.frame at.now.size
        ≡ move_by shown.new (view_on (P.stock parts.new) guests.now) (standing_by shown.new actor.now.standing) }
    ensures contexts { (P.stock parts.new).contexts ≡ (P.stock parts.old).contexts }
    ensures page_alone { TakesPageAlone shown.new.lock }
    ensures locks { (locks_of (P.stock parts.new)).holder ≡ relocked number (locks_by shown.new actor.now.standing) (locks_of (P.stock parts.old)).holder }
    ensures room { IsSome shown.new.lock → length actor.now.standing.locks < 3 }
    ensures kept { P.kept parts.old parts.new }
{
    if actor.has_locked() {
        commit_page(parts, number, at, ask, shown)
    } else {
        let place = page_place(guests, cpu, at);
        lock_page(parts, number, &place, at.frame, ask.size, shown)
    }
}

// The lock of the page of the frame, with its tests.
fn lock_page<P: Parts>(
    parts: &mut P,
    number: u32,
    place: &Place,
    frame: u32,
    size: PageSize,
    shown: &mut Shown,
)
    requires has { HasFrame (P.stock parts.old) frame }
    requires place { IsPlace place.now }
    requires slot { place.now.slot ≡ frame % 512 }
    requires none { HoldsNone number (P.stock parts.old) }
    ensures shown { shown.new ≡ lock_shown (page_lock (pages_of (P.stock parts.old).bays frame).facts.size frame) (page_refused (validate_refusal place.now size) frame (P.stock parts.old)) }
    ensures pages { pages_of (P.stock parts.new).bays ≡ pages_of (P.stock parts.old).bays }
    ensures contexts { (P.stock parts.new).contexts ≡ (P.stock parts.old).contexts }
    ensures page_alone { TakesPageAlone shown.new.lock }
    ensures locks { holders_of (P.stock parts.new).bays ≡ relocked number (locks_by shown.new nothing_taken) (holders_of (P.stock parts.old).bays) }
    ensures kept { P.kept parts.old parts.new }
{
    let bay = parts.bay_mut(frame / 512);
    let entry = bay.rmp.effective(place.slot);
    match validate_lock(&mut bay.rmp, place, size, number) {
        Err(refusal) => *shown = Shown::refused(frame as u64, refusal),
        Ok(()) => *shown = Shown::locked(page_taken(frame, entry.size)),
    }
}

// The commit of the locked page, which releases the lock.
fn commit_page<P: Parts>(
    parts: &mut P,
    number: u32,
    at: &Arrived,
    ask: &Validation,
    shown: &mut Shown,
)
    requires has { HasFrame (P.stock parts.old) at.now.frame }
    requires holds { HoldsLock number (page_lock (pages_of (P.stock parts.old).bays at.now.frame).facts.size at.now.frame) (P.stock parts.old) }
    ensures shown { let own = (pages_of (P.stock parts.old).bays at.now.frame).facts in
        shown.new ≡ record { deed = Commit at.now.frame at.now.gpn ask.now.size; outcome = Some (Carry (carry ask.now.validate own)); lock = None } }
    ensures pages { let own = (pages_of (P.stock parts.old).bays at.now.frame).facts in
        pages_of (P.stock parts.new).bays ≡ pages_validated ask.now.validate own (page_lock own.size at.now.frame) (pages_of (P.stock parts.old).bays) }
    ensures contexts { (P.stock parts.new).contexts ≡ (P.stock parts.old).contexts }
    ensures page_alone { TakesPageAlone shown.new.lock }
    ensures locks { holders_of (P.stock parts.new).bays ≡ relocked number [] (holders_of (P.stock parts.old).bays) }
    ensures kept { P.kept parts.old parts.new }
{
    let frame = at.frame;
    let bay = parts.bay_mut(frame / 512);
    let carry = validate_commit(&mut bay.rmp, frame as usize % 512, ask.validate, number);
    let deed = Deed::Commit {
        frame,
        gpn: at.gpn,
        size: ask.size,
    };
    *shown = Shown::last(deed, Outcome::Carry(carry));
}
