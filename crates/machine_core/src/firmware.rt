ghost use Rattle.std.specs.Prelude.{◌≡◌, ◌≢◌, ◌<◌, ℕ, length, slice_get, Some, IfOk, IsErr, IsOk, IsSome};
ghost use Rattle.std.specs.Option.{option_or};
ghost use Rattle.snp_model.specs.Entries.{facts_at, holder_at, with_lock};
ghost use Rattle.snp_model.specs.Firmware.{guest_of, pages_of as named_pages};
ghost use Rattle.snp_model.specs.FirmwareLocks.{firmware_answer, page_extra, page_refusal};
ghost use Rattle.snp_model.specs.FirmwareStep.{command_asid, take_page};
ghost use Rattle.snp_model.specs.Locks.{page_lock};
ghost use Rattle.snp_model.specs.RegionWords.{page_at};
ghost use Rattle.snp_model.specs.Touches.{page_touches};
ghost use Rattle.run_laws.specs.HeldLocks.{AreCommandLocks};
ghost use Rattle.run_laws.specs.KeptLocks.{OwnsContext, OwnsLocks, recontexted, relocked};
ghost use Rattle.machine_core.specs.Actors.{page_lock_of};
ghost use Rattle.machine_core.specs.Bays.{HasFrame, HasTouched, contents_of, holders_of, locks_of, pages_of, view_on};
ghost use Rattle.machine_core.specs.Commands.{command_page, named_refused, refusal_in};
ghost use Rattle.machine_core.specs.Commits.{IsBoundedCommand};
ghost use Rattle.machine_core.specs.Moves.{MakesNoPage, context_by, locks_by, move_by, standing_by};

use crate::actor::ActorState;
use crate::bay::Bay;
use crate::command::{NamedPage, guest_of};
use crate::cpu::asid_of;
use crate::page::page_taken;
use crate::parts::Parts;
use crate::refusal::release_all;
use crate::shown::Shown;
use crate::taken_lock::TakenLock;
use fw_launch::page_test;
use fw_swap::words_test;
use snp_model::{Command, FwRefusal, GuestSpec, Part};

/// An address is outside memory (SEV-SNP firmware ABI 56860, 6).
const INVALID_ADDRESS: u16 = 0x09;

/// The event that locks a page of a command, with its tests. Where it is refused, all that the attempt has locked is
/// released.
#[tactic(auto, unfolding(snp_model::specs::FirmwareStep::take_page))]
pub fn lock_named<P: Parts>(
    parts: &mut P,
    number: u32,
    frames: u32,
    guests: &[GuestSpec],
    actor: &ActorState,
    command: &Command,
    named: NamedPage,
    shown: &mut Shown,
)
    requires command { IsBoundedCommand command.now }
    requires next { slice_get (named_pages command.now) (length actor.now.standing.locks) ≡ Some (command_page named) }
    requires held { (guest : ℕ) → guest_of command.now ≡ Some guest → actor.now.standing.context_lock ≡ Some guest }
    requires has { HasTouched (page_touches frames actor.now.standing (command_page named)) (P.stock parts.old) }
    requires owns { OwnsLocks number actor.now (locks_of (P.stock parts.old)).holder }
    requires owns_context { OwnsContext number actor.now (locks_of (P.stock parts.old)).context_holder }
    requires tested { AreCommandLocks frames guests.now (contents_of (P.stock parts.old) guests.now) command.now actor.now.standing }
    ensures moves { take_page frames guests.now (view_on (P.stock parts.old) guests.now) actor.now command.now (command_page named)
        ≡ move_by shown.new (view_on (P.stock parts.new) guests.now) (standing_by shown.new actor.now.standing) }
    ensures locks { (locks_of (P.stock parts.new)).holder ≡ relocked number (locks_by shown.new actor.now.standing) (locks_of (P.stock parts.old)).holder }
    ensures context_locks { (locks_of (P.stock parts.new)).context_holder ≡ recontexted number (context_by shown.new actor.now.standing) (locks_of (P.stock parts.old)).context_holder }
    ensures room { IsSome shown.new.lock → length actor.now.standing.locks < 3 }
    ensures no_page { MakesNoPage shown.new.lock }
    ensures kept { P.kept parts.old parts.new }
{
    let asid = command_asid(guests, command);
    match lock_page(parts, number, frames, asid, command, named) {
        Ok(lock) => *shown = Shown::locked(lock),
        Err(refusal) => {
            release_all(parts, number, actor);
            *shown = Shown::named_refused(named.frame, refusal);
        }
    }
}

// The ASID of the guest that a command names, and 0 where it names none.
fn command_asid(guests: &[GuestSpec], command: &Command) -> u16
    requires { IsBoundedCommand command.now }
    ensures { result ≡ command_asid guests.now command.now }
{
    match guest_of(command) {
        None => 0,
        Some(guest) => asid_of(guests, guest),
    }
}

// The lock of a page of a command, for an actor that doesn't hold it, with the tests of its frame, its entry and its words.
// Where it is refused, the locks stay.
fn lock_page<P: Parts>(
    parts: &mut P,
    number: u32,
    frames: u32,
    asid: u16,
    command: &Command,
    named: NamedPage,
) -> Result<TakenLock, FwRefusal>
    requires command { IsBoundedCommand command.now }
    requires has { named.frame < frames → HasFrame (P.stock parts.old) named.frame }
    requires not_held { holders_of (P.stock parts.old).bays named.frame ≢ Some number }
    ensures refusal { refusal_in result ≡ named_refused frames asid command.now named (P.stock parts.old) }
    ensures taken { IfOk result (λ taken. page_lock_of taken ≡ page_lock (pages_of (P.stock parts.old).bays named.frame).facts.size named.frame) }
    ensures pages { pages_of (P.stock parts.new).bays ≡ pages_of (P.stock parts.old).bays }
    ensures contexts { (P.stock parts.new).contexts ≡ (P.stock parts.old).contexts }
    ensures locked { IfOk result (λ taken. holders_of (P.stock parts.new).bays ≡ with_lock (page_lock_of taken) number (holders_of (P.stock parts.old).bays)) }
    ensures refused { IsErr result → holders_of (P.stock parts.new).bays ≡ holders_of (P.stock parts.old).bays }
    ensures kept { P.kept parts.old parts.new }
{
    if u64::from(frames) <= named.frame {
        return Err(FwRefusal::Status(INVALID_ADDRESS));
    }
    let frame = named.frame as u32;
    let slot = (frame % 512) as usize;
    let bay = parts.bay_mut(frame / 512);
    match lock_slot(bay, number, asid, command, named.part, slot) {
        Ok(()) => Ok(page_taken(frame, bay.rmp.effective(slot).size)),
        Err(refusal) => Err(refusal),
    }
}

// The lock of the page in which a slot of a region stands, with the tests of its entry and of its words.
fn lock_slot(
    bay: &mut Bay,
    number: u32,
    asid: u16,
    command: &Command,
    part: Part,
    slot: usize,
) -> Result<(), FwRefusal>
    requires command { IsBoundedCommand command.now }
    requires slot { slot < 512 }
    requires not_held { holder_at bay.old.rmp slot ≢ Some number }
    ensures answer { result ≡ firmware_answer
        (option_or (page_refusal command.now part (facts_at bay.old.rmp slot) (holder_at bay.old.rmp slot) asid) (page_extra command.now part asid (page_at bay.old.memory slot))) }
    ensures memory { bay.new.memory ≡ bay.old.memory }
    ensures facts { bay.new.rmp.facts ≡ bay.old.rmp.facts }
    ensures locked { IsOk result → holder_at bay.new.rmp ≡ with_lock (page_lock (facts_at bay.old.rmp slot).size slot) number (holder_at bay.old.rmp) }
    ensures refused { IsErr result → bay.new.rmp ≡ bay.old.rmp }
{
    match page_test(&bay.rmp, command, part, slot, asid) {
        Err(refusal) => Err(refusal),
        Ok(()) => match words_test(&bay.memory, &bay.rmp, slot, command, part, asid) {
            Err(refusal) => Err(refusal),
            Ok(()) => {
                // No actor holds it, so it is taken.
                let _ = bay.rmp.lock(slot, number);
                Ok(())
            }
        },
    }
}
