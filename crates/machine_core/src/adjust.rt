ghost use Rattle.std.specs.Prelude.{◌≡◌, ◌%◌, ◌<◌, ◌^◌, length, [], None, Some, IsSome};
ghost use Rattle.snp_model.specs.declared.event.Deed.TheVariants.{Commit};
ghost use Rattle.snp_model.specs.declared.event.Outcome.TheVariants.{Status};
ghost use Rattle.snp_model.specs.Accesses.{IsPlace};
ghost use Rattle.snp_model.specs.Bounds.{IsCpu, IsGuestInside};
ghost use Rattle.snp_model.specs.InstructionStep.{adjust_begin, adjust_move, cpu_adjust, page_lookup};
ghost use Rattle.snp_model.specs.Locks.{page_lock};
ghost use Rattle.snp_model.specs.State.{nothing_taken};
ghost use Rattle.snp_model.specs.Touches.{walk_touches, with_locks};
ghost use Rattle.snp_model.specs.Validation.{adjust_input, adjust_refusal, pages_adjusted};
ghost use Rattle.snp_model.specs.Walking.{guest_stands, guest_words};
ghost use Rattle.run_laws.specs.HeldLocks.{AreInstructionLocks, IsWalkedLock, adjust_test};
ghost use Rattle.run_laws.specs.KeptLocks.{OwnsLocks, relocked};
ghost use Rattle.machine_core.specs.Actors.{IsBegun};
ghost use Rattle.machine_core.specs.Bays.{HasFrame, HasTouched, contents_of, holders_of, locks_of, pages_of, view_on};
ghost use Rattle.machine_core.specs.Moves.{TakesPageAlone, lock_shown, locks_by, move_by, processor_of, standing_by};
ghost use Rattle.machine_core.specs.Ranges.{HoldsLock, HoldsNone, IsLockOfPage, page_refused};

use crate::actor::ActorState;
use crate::cpu::{Arrived, Processor, Walker, walk};
use crate::page::{is_page_address, page_place, page_taken};
use crate::parts::Parts;
use crate::shown::Shown;
use crate::walking::page_lookup;
use rmp_adjust::{adjust_commit, adjust_input, adjust_lock};
use snp_model::{Deed, GuestEnd, GuestSpec, Outcome, PageSize, Place};

/// The operands of RMPADJUST: the page at a virtual address, the VMPL whose permissions the mask becomes, and what VMSA is
/// to be.
#[derive(Clone, Copy)]
pub struct Adjustment {
    pub address: u64,
    pub size: PageSize,
    pub target: u8,
    pub mask: u8,
    pub vmsa: bool,
}

/// The next event of RMPADJUST of a guest's processor, in memory of so many frames: one of its walks, the lock of the page
/// to which they have come, or the commit of what is locked.
#[inline(never)]
pub fn adjust_event<P: Parts>(
    parts: &mut P,
    number: u32,
    frames: u32,
    guests: &[GuestSpec],
    actor: &ActorState,
    cpu: Processor,
    ask: &Adjustment,
    stands: GuestEnd,
    shown: &mut Shown,
)
    requires cpu { IsCpu frames (length guests.now) cpu.guest cpu.vmpl cpu.npt cpu.paging }
    requires stands { IsBegun actor.now.deeds → stands ≡ guest_stands cpu.paging (page_lookup ask.now.address) (guest_words actor.now.deeds) }
    requires inside { IsGuestInside stands }
    requires has { HasTouched (with_locks actor.now.standing.locks (walk_touches frames (processor_of cpu) (page_lookup ask.now.address) actor.now.deeds)) (P.stock parts.old) }
    requires owns { OwnsLocks number actor.now (locks_of (P.stock parts.old)).holder }
    requires tested { AreInstructionLocks (IsWalkedLock frames guests.now (contents_of (P.stock parts.old) guests.now) (processor_of cpu) ask.now.address (adjust_test ask.now.size ask.now.mask ask.now.vmsa) actor.now.deeds) actor.now.standing }
    requires input { IsBegun actor.now.deeds → adjust_begin (processor_of cpu) ask.now.address ask.now.size ask.now.target ask.now.mask ≡ None }
    ensures moves { cpu_adjust frames guests.now (view_on (P.stock parts.old) guests.now) actor.now (processor_of cpu) ask.now.address ask.now.size ask.now.target ask.now.mask ask.now.vmsa
        ≡ move_by shown.new (view_on (P.stock parts.new) guests.now) (standing_by shown.new actor.now.standing) }
    ensures contexts { (P.stock parts.new).contexts ≡ (P.stock parts.old).contexts }
    ensures page_alone { TakesPageAlone shown.new.lock }
    ensures locks { (locks_of (P.stock parts.new)).holder ≡ relocked number (locks_by shown.new actor.now.standing) (locks_of (P.stock parts.old)).holder }
    ensures room { IsSome shown.new.lock → length actor.now.standing.locks < 3 }
    ensures kept { P.kept parts.old parts.new }
{
    let walker = Walker {
        cpu,
        lookup: page_lookup(ask.address),
    };
    let refusal = adjust_begin(cpu, ask);
    match walk(
        parts, frames, guests, actor, &walker, refusal, stands, shown,
    ) {
        None => {}
        Some(at) => adjust_page(parts, number, guests, actor, cpu, &at, ask, shown),
    }
}

// What it is refused with as it begins.
#[tactic(auto, unfolding(snp_model::specs::InstructionStep::adjust_begin))]
fn adjust_begin(cpu: Processor, ask: &Adjustment) -> Option<Outcome>
    ensures { result ≡ adjust_begin (processor_of cpu) ask.now.address ask.now.size ask.now.target ask.now.mask }
{
    if !is_page_address(ask.size, ask.address) {
        return Some(Outcome::Status(1));
    }
    match adjust_input(cpu.vmpl, ask.target, ask.mask) {
        None => None,
        Some(status) => Some(Outcome::Status(status)),
    }
}

// The next event where its walks have come to a page: the lock of the page, or the commit.
fn adjust_page<P: Parts>(
    parts: &mut P,
    number: u32,
    guests: &[GuestSpec],
    actor: &ActorState,
    cpu: Processor,
    at: &Arrived,
    ask: &Adjustment,
    shown: &mut Shown,
)
    requires guest { 0 < cpu.guest }
    requires vmpl { cpu.vmpl < 4 }
    requires gpn { at.now.gpn < 2 ^ 36 }
    requires input { adjust_input cpu.vmpl ask.now.target ask.now.mask ≡ None }
    requires has { HasFrame (P.stock parts.old) at.now.frame }
    requires owns { OwnsLocks number actor.now (locks_of (P.stock parts.old)).holder }
    requires tested { AreInstructionLocks (IsLockOfPage (P.stock parts.old) at.now.frame) actor.now.standing }
    ensures moves { adjust_move guests.now (view_on (P.stock parts.old) guests.now) actor.now (processor_of cpu) ask.now.size ask.now.target ask.now.mask ask.now.vmsa actor.now.standing.locks at.now.gpn at.now.private at.now.frame at.now.size
        ≡ move_by shown.new (view_on (P.stock parts.new) guests.now) (standing_by shown.new actor.now.standing) }
    ensures contexts { (P.stock parts.new).contexts ≡ (P.stock parts.old).contexts }
    ensures page_alone { TakesPageAlone shown.new.lock }
    ensures locks { (locks_of (P.stock parts.new)).holder ≡ relocked number (locks_by shown.new actor.now.standing) (locks_of (P.stock parts.old)).holder }
    ensures room { IsSome shown.new.lock → length actor.now.standing.locks < 3 }
    ensures kept { P.kept parts.old parts.new }
{
    if actor.has_locked() {
        commit_page(parts, number, cpu.vmpl, at, ask, shown)
    } else {
        let place = page_place(guests, cpu, at);
        lock_page(parts, number, &place, at.frame, ask, shown)
    }
}

// The lock of the page of the frame, with its tests.
fn lock_page<P: Parts>(
    parts: &mut P,
    number: u32,
    place: &Place,
    frame: u32,
    ask: &Adjustment,
    shown: &mut Shown,
)
    requires has { HasFrame (P.stock parts.old) frame }
    requires place { IsPlace place.now }
    requires slot { place.now.slot ≡ frame % 512 }
    requires none { HoldsNone number (P.stock parts.old) }
    ensures shown { shown.new ≡ lock_shown (page_lock (pages_of (P.stock parts.old).bays frame).facts.size frame) (page_refused (adjust_refusal place.now ask.now.size ask.now.mask ask.now.vmsa) frame (P.stock parts.old)) }
    ensures pages { pages_of (P.stock parts.new).bays ≡ pages_of (P.stock parts.old).bays }
    ensures contexts { (P.stock parts.new).contexts ≡ (P.stock parts.old).contexts }
    ensures page_alone { TakesPageAlone shown.new.lock }
    ensures locks { holders_of (P.stock parts.new).bays ≡ relocked number (locks_by shown.new nothing_taken) (holders_of (P.stock parts.old).bays) }
    ensures kept { P.kept parts.old parts.new }
{
    let bay = parts.bay_mut(frame / 512);
    let entry = bay.rmp.effective(place.slot);
    match adjust_lock(&mut bay.rmp, place, ask.size, ask.mask, ask.vmsa, number) {
        Err(refusal) => *shown = Shown::refused(frame as u64, refusal),
        Ok(()) => *shown = Shown::locked(page_taken(frame, entry.size)),
    }
}

// The commit of the locked page, which releases the lock.
fn commit_page<P: Parts>(
    parts: &mut P,
    number: u32,
    vmpl: u8,
    at: &Arrived,
    ask: &Adjustment,
    shown: &mut Shown,
)
    requires input { adjust_input vmpl ask.now.target ask.now.mask ≡ None }
    requires has { HasFrame (P.stock parts.old) at.now.frame }
    requires holds { HoldsLock number (page_lock (pages_of (P.stock parts.old).bays at.now.frame).facts.size at.now.frame) (P.stock parts.old) }
    ensures shown { shown.new ≡ record { deed = Commit at.now.frame at.now.gpn ask.now.size; outcome = Some (Status 0); lock = None } }
    ensures pages { let own = (pages_of (P.stock parts.old).bays at.now.frame).facts in
        pages_of (P.stock parts.new).bays ≡ pages_adjusted vmpl ask.now.target ask.now.mask ask.now.vmsa (page_lock own.size at.now.frame) (pages_of (P.stock parts.old).bays) }
    ensures contexts { (P.stock parts.new).contexts ≡ (P.stock parts.old).contexts }
    ensures page_alone { TakesPageAlone shown.new.lock }
    ensures locks { holders_of (P.stock parts.new).bays ≡ relocked number [] (holders_of (P.stock parts.old).bays) }
    ensures kept { P.kept parts.old parts.new }
{
    let frame = at.frame;
    let bay = parts.bay_mut(frame / 512);
    adjust_commit(
        &mut bay.rmp,
        frame as usize % 512,
        vmpl,
        ask.target,
        ask.mask,
        ask.vmsa,
        number,
    );
    let deed = Deed::Commit {
        frame,
        gpn: at.gpn,
        size: ask.size,
    };
    *shown = Shown::last(deed, Outcome::Status(0));
}
