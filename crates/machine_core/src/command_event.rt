ghost use Rattle.std.specs.Prelude.{◌≡◌, ◌<◌, true, [], length, None, Some};
ghost use Rattle.snp_model.specs.Bounds.{IsFirmwareCommand};
ghost use Rattle.snp_model.specs.declared.event.Outcome.TheVariants.{Firmware};
ghost use Rattle.snp_model.specs.Firmware.{success};
ghost use Rattle.snp_model.specs.FirmwareStep.{commit_move, firmware_move};
ghost use Rattle.snp_model.specs.Sealing.{sealing_of};
ghost use Rattle.snp_model.specs.Touches.{firmware_touches};
ghost use Rattle.run_laws.specs.HeldLocks.{AreCommandLocks};
ghost use Rattle.run_laws.specs.KeptLocks.{OwnsContext, OwnsLocks, recontexted, relocked};
ghost use Rattle.run_laws.specs.OpenAttempts.{IsCommand};
ghost use Rattle.machine_core.specs.Bays.{HasTouched, contents_of, locks_of, view_on};
ghost use Rattle.machine_core.specs.Commits.{MayCommit};
ghost use Rattle.machine_core.specs.Moves.{context_by, locks_by, move_by, standing_by, standing_with, takes_page};

use crate::actor::ActorState;
use crate::command::{Next, next_of};
use crate::compute_event::compute;
use crate::firmware::lock_named;
use crate::held_context::{lock_context, release_context};
use crate::launch::{commit_guest, commit_launched};
use crate::made_page::MadePage;
use crate::metadata::commit_metadata;
use crate::page_move::commit_move;
use crate::parts::Parts;
use crate::reclaim::commit_reclaim;
use crate::shown::Shown;
use crate::swap_commit::commit_swap;
use snp_model::{Command, GuestSpec};

/// The next event of a command of the firmware, in memory of so many frames: the lock of its guest's context, that of a page,
/// the compute of the page that it seals or opens, or its commit. `page` is a place for one page; what it holds afterwards
/// matters where one was made.
pub fn command_event<P: Parts>(
    parts: &mut P,
    number: u32,
    frames: u32,
    guests: &[GuestSpec],
    actor: &ActorState,
    command: &Command,
    page: &mut MadePage,
    shown: &mut Shown,
)
    requires command { IsFirmwareCommand command.now }
    requires attempt { IsCommand frames command.now actor.now.standing actor.now.deeds }
    requires has { HasTouched (firmware_touches frames guests.now actor.now.standing command.now) (P.stock parts.old) }
    requires owns { OwnsLocks number actor.now (locks_of (P.stock parts.old)).holder }
    requires owns_context { OwnsContext number actor.now (locks_of (P.stock parts.old)).context_holder }
    requires tested { AreCommandLocks frames guests.now (contents_of (P.stock parts.old) guests.now) command.now actor.now.standing }
    ensures moves { firmware_move frames guests.now (view_on (P.stock parts.old) guests.now) actor.now command.now
        ≡ move_by shown.new (view_on (P.stock parts.new) guests.now) (standing_with page.new shown.new actor.now.standing) }
    ensures locks { (locks_of (P.stock parts.new)).holder ≡ relocked number (locks_by shown.new actor.now.standing) (locks_of (P.stock parts.old)).holder }
    ensures context_locks { (locks_of (P.stock parts.new)).context_holder ≡ recontexted number (context_by shown.new actor.now.standing) (locks_of (P.stock parts.old)).context_holder }
    ensures room { takes_page shown.new.lock ≡ true → length actor.now.standing.locks < 3 }
    ensures kept { P.kept parts.old parts.new }
{
    match next_of(command, actor) {
        Next::TakeContext(guest) => lock_context(parts, number, guests, command, guest, shown),
        Next::TakePage(named) => lock_named(
            parts, number, frames, guests, actor, command, named, shown,
        ),
        Next::Compute(sealing) => compute(
            parts, number, frames, guests, actor, command, &sealing, page, shown,
        ),
        Next::CommitSwap(sealing) => commit_swap(
            parts, number, frames, guests, actor, command, &sealing, shown,
        ),
        Next::Commit => commit(
            parts,
            number,
            frames,
            guests,
            actor,
            command,
            &mut page.words,
            shown,
        ),
    }
}

// The commit of a command that seals and opens nothing and has locked all that it locks.
#[tactic(auto, unfolding(snp_model::specs::Sealing::sealing_of))]
fn commit<P: Parts>(
    parts: &mut P,
    number: u32,
    frames: u32,
    guests: &[GuestSpec],
    actor: &ActorState,
    command: &Command,
    words: &mut [u64; 512],
    shown: &mut Shown,
)
    requires seals_none { sealing_of command.now ≡ None }
    requires may { MayCommit frames guests.now number command.now actor.now (P.stock parts.old) }
    ensures moves { commit_move (contents_of (P.stock parts.old) guests.now) actor.now command.now
        ≡ move_by shown.new (view_on (P.stock parts.new) guests.now) (standing_by shown.new actor.now.standing) }
    ensures ended { shown.new.outcome ≡ Some (Firmware success) }
    ensures no_lock { shown.new.lock ≡ None }
    ensures locks { (locks_of (P.stock parts.new)).holder ≡ relocked number [] (locks_of (P.stock parts.old)).holder }
    ensures context_locks { (locks_of (P.stock parts.new)).context_holder ≡ recontexted number None (locks_of (P.stock parts.old)).context_holder }
    ensures kept { P.kept parts.old parts.new }
{
    match command {
        Command::GctxCreate { guest, frame } | Command::LaunchUpdate { guest, frame, .. } => {
            commit_launched(parts, number, command, *guest, *frame, words, shown)
        }
        Command::Activate { guest, .. }
        | Command::LaunchStart { guest }
        | Command::LaunchFinish { guest } => {
            commit_guest(parts, number, command, *guest, words, shown)
        }
        Command::MdInit { frame } => commit_metadata(parts, number, *frame, shown),
        Command::PageMove {
            guest,
            source,
            target,
        } => {
            commit_move(parts, number, *source, *target, words, shown);
            release_context(parts, number, *guest);
        }
        Command::Reclaim { frame } => commit_reclaim(parts, number, *frame, shown),
        Command::SwapOut { .. }
        | Command::SwapIn { .. }
        | Command::MdOut { .. }
        | Command::MdIn { .. }
        | Command::MdRootOut { .. }
        | Command::MdRootIn { .. } => unreachable!(),
    }
}
