ghost use Rattle.std.specs.Prelude.{◌≡◌, ◌<◌, true, List, length, None, IsSome};
ghost use Rattle.snp_model.specs.declared.scenario.GuestSpec.{GuestSpec};
ghost use Rattle.snp_model.specs.declared.scenario.Role.TheVariants.{Cpu, Host, Firmware};
ghost use Rattle.snp_model.specs.Bounds.{IsCpu, IsGuestInside, IsItemOf};
ghost use Rattle.snp_model.specs.Step.{item_move, line_at, step_of};
ghost use Rattle.snp_model.specs.Touches.{item_touches};
ghost use Rattle.snp_model.specs.Walking.{guest_words};
ghost use Rattle.run_laws.specs.HeldLocks.{AreItemLocks};
ghost use Rattle.run_laws.specs.KeptLocks.{IsTestedAt, OwnsContext, OwnsLocks, recontexted, relocked};
ghost use Rattle.run_laws.specs.OpenAttempts.{IsAttempt};
ghost use Rattle.run_laws.specs.Ready.{IsReady};
ghost use Rattle.machine_core.specs.Actors.{IsBegun};
ghost use Rattle.machine_core.specs.Bays.{HasAll, HasTouched, locks_of, view_on};
ghost use Rattle.machine_core.specs.Moves.{TakesPageAlone, context_by, locks_by, move_by, standing_by, standing_with, takes_page};
ghost use Rattle.machine_core.specs.Walks.{stands_of};

use crate::actor::ActorState;
use crate::adjust::{Adjustment, adjust_event};
use crate::command_event::command_event;
use crate::cpu::{Processor, Walker, cpu_access};
use crate::host::host_access;
use crate::made_page::MadePage;
use crate::parts::Parts;
use crate::shown::Shown;
use crate::skip::skip;
use crate::smash::smash_event;
use crate::update::update_event;
use crate::validate::{Validation, validate_event};
use crate::walking::lookup_of;
use snp_model::{Event, GuestEnd, GuestSpec, Item, Role};

/// Makes the next event of an unfinished actor, with its number from 1, in memory of so many frames: the step of the
/// tables, over parts that have the regions that it touches. The locks of its number are those that its open attempt has
/// taken. `page` is a place for one page, whatever it holds, and what it shows is written to a place that is there. Takes no
/// memory.
#[inline(always)]
pub(crate) fn advance<P: Parts>(
    actor: &mut ActorState,
    number: u32,
    frames: u32,
    guests: &[GuestSpec],
    parts: &mut P,
    page: &mut MadePage,
    shown: &mut Shown,
) -> Event
    requires ready { IsReady frames guests.now actor.old }
    requires unfinished { actor.old.item < length actor.old.script }
    requires has { HasAll frames guests.now actor.old (P.stock parts.old) }
    requires owns { OwnsLocks number actor.old (locks_of (P.stock parts.old)).holder }
    requires owns_context { OwnsContext number actor.old (locks_of (P.stock parts.old)).context_holder }
    requires tested { IsTestedAt frames guests.now (view_on (P.stock parts.old) guests.now).contents actor.old }
    ensures event { result ≡ (step_of frames guests.now actor.old (view_on (P.stock parts.old) guests.now)).event }
    ensures part { actor.new ≡ (step_of frames guests.now actor.old (view_on (P.stock parts.old) guests.now)).part }
    ensures contents { (view_on (P.stock parts.new) guests.now).contents ≡ (step_of frames guests.now actor.old (view_on (P.stock parts.old) guests.now)).contents }

    // The locks of other actors stay.
    ensures locks { (locks_of (P.stock parts.new)).holder ≡ relocked number actor.new.standing.locks (locks_of (P.stock parts.old)).holder }
    ensures context_locks { (locks_of (P.stock parts.new)).context_holder ≡ recontexted number actor.new.standing.context_lock (locks_of (P.stock parts.old)).context_holder }
    ensures kept { P.kept parts.old parts.new }
{
    next_event(parts, number, frames, guests, actor, page, shown);
    actor.take_down(shown, page)
}

// What the next event of an unfinished actor shows; the parts are then as after it.
#[inline(always)]
#[tactic(auto, unfolding(snp_model::specs::Step::item_move))]
fn next_event<P: Parts>(
    parts: &mut P,
    number: u32,
    frames: u32,
    guests: &[GuestSpec],
    actor: &ActorState,
    page: &mut MadePage,
    shown: &mut Shown,
)
    requires ready { IsReady frames guests.now actor.now }
    requires unfinished { actor.now.item < length actor.now.script }
    requires has { HasAll frames guests.now actor.now (P.stock parts.old) }
    requires owns { OwnsLocks number actor.now (locks_of (P.stock parts.old)).holder }
    requires owns_context { OwnsContext number actor.now (locks_of (P.stock parts.old)).context_holder }
    requires tested { IsTestedAt frames guests.now (view_on (P.stock parts.old) guests.now).contents actor.now }
    ensures moves { item_move frames guests.now (view_on (P.stock parts.old) guests.now) actor.now actor.now.role (line_at actor.now.script actor.now.item).item
        ≡ move_by shown.new (view_on (P.stock parts.new) guests.now) (standing_with page.new shown.new actor.now.standing) }
    ensures locks { (locks_of (P.stock parts.new)).holder ≡ relocked number (locks_by shown.new actor.now.standing) (locks_of (P.stock parts.old)).holder }
    ensures context_locks { (locks_of (P.stock parts.new)).context_holder ≡ recontexted number (context_by shown.new actor.now.standing) (locks_of (P.stock parts.old)).context_holder }
    ensures room { takes_page shown.new.lock ≡ true → length actor.now.standing.locks < 3 }
    ensures kept { P.kept parts.old parts.new }
{
    let item = actor.item();
    match actor.role() {
        Role::Cpu {
            guest,
            vmpl,
            npt,
            paging,
        } => {
            let cpu = Processor {
                guest,
                vmpl,
                npt,
                paging,
            };
            cpu_event(
                parts,
                number,
                frames,
                guests,
                actor,
                cpu,
                item,
                actor.guest_stands(),
                shown,
            )
        }
        Role::Host => host_event(parts, number, frames, guests, actor, item, shown),
        Role::Firmware => firmware_event(parts, number, frames, guests, actor, item, page, shown),
    }
}

// The next event of a guest's processor.
#[inline(always)]
#[tactic(auto, using(crate::proofs::HeldLaws::none_relocked, crate::proofs::HeldLaws::none_recontexted, crate::proofs::HeldLaws::instruction_recontexted, crate::proofs::HeldLaws::takes_none, crate::proofs::ArrivedLaws::attempt_admitted), unfolding(snp_model::specs::Step::item_move, snp_model::specs::Touches::item_touches, run_laws::specs::HeldLocks::AreItemLocks, run_laws::specs::OpenAttempts::IsAttempt))]
fn cpu_event<P: Parts>(
    parts: &mut P,
    number: u32,
    frames: u32,
    guests: &[GuestSpec],
    actor: &ActorState,
    cpu: Processor,
    item: &Item,
    stands: GuestEnd,
    shown: &mut Shown,
)
    requires cpu { IsCpu frames (length guests.now) cpu.guest cpu.vmpl cpu.npt cpu.paging }
    requires item { IsItemOf frames (Cpu cpu.guest cpu.vmpl cpu.npt cpu.paging) item.now }
    requires stands { IsBegun actor.now.deeds → stands ≡ stands_of (Cpu cpu.guest cpu.vmpl cpu.npt cpu.paging) item.now (guest_words actor.now.deeds) }
    requires inside { IsGuestInside stands }
    requires attempt { IsAttempt frames (Cpu cpu.guest cpu.vmpl cpu.npt cpu.paging) item.now actor.now.standing actor.now.deeds }
    requires has { HasTouched (item_touches frames guests.now actor.now (Cpu cpu.guest cpu.vmpl cpu.npt cpu.paging) item.now) (P.stock parts.old) }
    requires owns { OwnsLocks number actor.now (locks_of (P.stock parts.old)).holder }
    requires owns_context { OwnsContext number actor.now (locks_of (P.stock parts.old)).context_holder }
    requires tested { AreItemLocks frames guests.now (view_on (P.stock parts.old) guests.now).contents (Cpu cpu.guest cpu.vmpl cpu.npt cpu.paging) item.now actor.now.deeds actor.now.standing }
    ensures moves { item_move frames guests.now (view_on (P.stock parts.old) guests.now) actor.now (Cpu cpu.guest cpu.vmpl cpu.npt cpu.paging) item.now
        ≡ move_by shown.new (view_on (P.stock parts.new) guests.now) (standing_by shown.new actor.now.standing) }
    ensures locks { (locks_of (P.stock parts.new)).holder ≡ relocked number (locks_by shown.new actor.now.standing) (locks_of (P.stock parts.old)).holder }
    ensures context_locks { (locks_of (P.stock parts.new)).context_holder ≡ recontexted number (context_by shown.new actor.now.standing) (locks_of (P.stock parts.old)).context_holder }
    ensures room { IsSome shown.new.lock → length actor.now.standing.locks < 3 }
    ensures page_alone { TakesPageAlone shown.new.lock }
    ensures kept { P.kept parts.old parts.new }
{
    match item {
        Item::Access { address, op } => {
            let walker = Walker {
                cpu,
                lookup: lookup_of(*address, op),
            };
            cpu_access(parts, frames, guests, actor, &walker, op, stands, shown)
        }
        Item::Pvalidate {
            address,
            size,
            validate,
        } => {
            let ask = Validation {
                address: *address,
                size: *size,
                validate: *validate,
            };
            validate_event(
                parts, number, frames, guests, actor, cpu, &ask, stands, shown,
            )
        }
        Item::Rmpadjust {
            address,
            size,
            target,
            mask,
            vmsa,
        } => {
            let ask = Adjustment {
                address: *address,
                size: *size,
                target: *target,
                mask: *mask,
                vmsa: *vmsa,
            };
            adjust_event(
                parts, number, frames, guests, actor, cpu, &ask, stands, shown,
            )
        }
        Item::Rmpupdate(_) | Item::Psmash { .. } | Item::Firmware(_) => { shown.misplace() }
        Item::Skip { count, test } => skip(actor, *count, test, shown),
    }
}

// The next event of a hypervisor's processor.
#[inline(never)]
#[tactic(auto, using(crate::proofs::TouchLaws::frame_has, crate::proofs::HeldLaws::none_relocked, crate::proofs::HeldLaws::none_recontexted, crate::proofs::HeldLaws::instruction_recontexted, crate::proofs::HeldLaws::takes_none), unfolding(snp_model::specs::Step::item_move, snp_model::specs::Touches::item_touches, run_laws::specs::HeldLocks::AreItemLocks))]
fn host_event<P: Parts>(
    parts: &mut P,
    number: u32,
    frames: u32,
    guests: &[GuestSpec],
    actor: &ActorState,
    item: &Item,
    shown: &mut Shown,
)
    requires item { IsItemOf frames Host item.now }
    requires has { HasTouched (item_touches frames guests.now actor.now Host item.now) (P.stock parts.old) }
    requires owns { OwnsLocks number actor.now (locks_of (P.stock parts.old)).holder }
    requires owns_context { OwnsContext number actor.now (locks_of (P.stock parts.old)).context_holder }
    requires tested { AreItemLocks frames guests.now (view_on (P.stock parts.old) guests.now).contents Host item.now actor.now.deeds actor.now.standing }
    ensures moves { item_move frames guests.now (view_on (P.stock parts.old) guests.now) actor.now Host item.now
        ≡ move_by shown.new (view_on (P.stock parts.new) guests.now) (standing_by shown.new actor.now.standing) }
    ensures locks { (locks_of (P.stock parts.new)).holder ≡ relocked number (locks_by shown.new actor.now.standing) (locks_of (P.stock parts.old)).holder }
    ensures context_locks { (locks_of (P.stock parts.new)).context_holder ≡ recontexted number (context_by shown.new actor.now.standing) (locks_of (P.stock parts.old)).context_holder }
    ensures room { IsSome shown.new.lock → length actor.now.standing.locks < 3 }
    ensures page_alone { TakesPageAlone shown.new.lock }
    ensures kept { P.kept parts.old parts.new }
{
    match item {
        Item::Access { address, op } => host_access(parts, frames, *address, op, shown),
        Item::Pvalidate { .. } | Item::Rmpadjust { .. } => shown.misplace(),
        Item::Rmpupdate(update) => {
            update_event(parts, number, frames, guests, actor, update, shown)
        }
        Item::Psmash { frame } => smash_event(parts, number, frames, guests, actor, *frame, shown),
        Item::Firmware(_) => shown.misplace(),
        Item::Skip { count, test } => skip(actor, *count, test, shown),
    }
}

// The next event of a firmware actor.
#[inline(never)]
#[tactic(auto, using(crate::proofs::HeldLaws::none_relocked, crate::proofs::HeldLaws::none_recontexted), unfolding(snp_model::specs::Step::item_move, snp_model::specs::Touches::item_touches, run_laws::specs::HeldLocks::AreItemLocks, run_laws::specs::OpenAttempts::IsAttempt))]
fn firmware_event<P: Parts>(
    parts: &mut P,
    number: u32,
    frames: u32,
    guests: &[GuestSpec],
    actor: &ActorState,
    item: &Item,
    page: &mut MadePage,
    shown: &mut Shown,
)
    requires item { IsItemOf frames Firmware item.now }
    requires attempt { IsAttempt frames Firmware item.now actor.now.standing actor.now.deeds }
    requires has { HasTouched (item_touches frames guests.now actor.now Firmware item.now) (P.stock parts.old) }
    requires owns { OwnsLocks number actor.now (locks_of (P.stock parts.old)).holder }
    requires owns_context { OwnsContext number actor.now (locks_of (P.stock parts.old)).context_holder }
    requires tested { AreItemLocks frames guests.now (view_on (P.stock parts.old) guests.now).contents Firmware item.now actor.now.deeds actor.now.standing }
    ensures moves { item_move frames guests.now (view_on (P.stock parts.old) guests.now) actor.now Firmware item.now
        ≡ move_by shown.new (view_on (P.stock parts.new) guests.now) (standing_with page.new shown.new actor.now.standing) }
    ensures locks { (locks_of (P.stock parts.new)).holder ≡ relocked number (locks_by shown.new actor.now.standing) (locks_of (P.stock parts.old)).holder }
    ensures context_locks { (locks_of (P.stock parts.new)).context_holder ≡ recontexted number (context_by shown.new actor.now.standing) (locks_of (P.stock parts.old)).context_holder }
    ensures room { takes_page shown.new.lock ≡ true → length actor.now.standing.locks < 3 }
    ensures kept { P.kept parts.old parts.new }
{
    match item {
        Item::Access { .. }
        | Item::Pvalidate { .. }
        | Item::Rmpadjust { .. }
        | Item::Rmpupdate(_)
        | Item::Psmash { .. } => shown.misplace(),
        Item::Firmware(command) => command_event(
            parts, number, frames, guests, actor, command, page, shown,
        ),
        Item::Skip { count, test } => skip(actor, *count, test, shown),
    }
}
