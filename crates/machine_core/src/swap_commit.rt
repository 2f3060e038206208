ghost use Rattle.std.specs.Prelude.{◌≡◌, ◌≢◌, [], Some, None, IsSome};
ghost use Rattle.snp_model.specs.declared.event.Outcome.TheVariants.{Firmware};
ghost use Rattle.snp_model.specs.Firmware.{success};
ghost use Rattle.snp_model.specs.FirmwareStep.{commit_move};
ghost use Rattle.snp_model.specs.Sealing.{sealing_of};
ghost use Rattle.run_laws.specs.KeptLocks.{recontexted, relocked};
ghost use Rattle.machine_core.specs.Actors.{computed_of};
ghost use Rattle.machine_core.specs.Bays.{contents_of, holders_of, locks_of, pages_of, view_on};
ghost use Rattle.machine_core.specs.Commits.{IsBoundedCommand, MayCommit};
ghost use Rattle.machine_core.specs.Moves.{move_by, standing_by};
ghost use Rattle.machine_core.specs.Seals.{MaySwap, sealing_by};
ghost use Rattle.machine_core.specs.Swaps.{swap_deed, swapped_pages};

use crate::actor::ActorState;
use crate::made_page::MadePage;
use crate::parts::Parts;
use crate::sealing::{Sealing, Way};
use crate::shown::Shown;
use crate::swap::{open_pages, seal_pages};
use crate::swap_context::commit_swap_context;
use snp_model::{Command, GuestSpec};

/// The commit of a command that seals or opens a page, which its compute has made: the pages, the entry and the guest's context
/// are changed, and all that the attempt has locked is released.
pub fn commit_swap<P: Parts>(
    parts: &mut P,
    number: u32,
    frames: u32,
    guests: &[GuestSpec],
    actor: &ActorState,
    command: &Command,
    sealing: &Sealing,
    shown: &mut Shown,
)
    requires command { IsBoundedCommand command.now }
    requires seals { sealing_of command.now ≡ Some (sealing_by sealing.now) }
    requires made { IsSome actor.now.standing.computed }
    requires may { MayCommit frames guests.now number command.now actor.now (P.stock parts.old) }
    ensures moves { commit_move (contents_of (P.stock parts.old) guests.now) actor.now command.now
        ≡ move_by shown.new (view_on (P.stock parts.new) guests.now) (standing_by shown.new actor.now.standing) }
    ensures ended { shown.new.outcome ≡ Some (Firmware success) }
    ensures no_lock { shown.new.lock ≡ None }
    ensures locks { (locks_of (P.stock parts.new)).holder ≡ relocked number [] (locks_of (P.stock parts.old)).holder }
    ensures context_locks { (locks_of (P.stock parts.new)).context_holder ≡ recontexted number None (locks_of (P.stock parts.old)).context_holder }
    ensures kept { P.kept parts.old parts.new }
{
    let made = actor.made();
    commit_pages(parts, number, sealing, made, shown);
    commit_swap_context(
        parts,
        number,
        command,
        sealing.guest,
        &made.entry,
        &made.words,
    );
}

// The commit of its pages, which releases their locks.
fn commit_pages<P: Parts>(
    parts: &mut P,
    number: u32,
    sealing: &Sealing,
    made: &MadePage,
    shown: &mut Shown,
)
    requires may { MaySwap number sealing.now (P.stock parts.old) }
    requires apart { sealing.now.source ≢ sealing.now.target }
    ensures shown { let sealing = sealing_by sealing.now in
        shown.new ≡ record { deed = swap_deed sealing (pages_of (P.stock parts.old).bays) (pages_of (P.stock parts.new).bays); outcome = Some (Firmware success); lock = None } }
    ensures pages { pages_of (P.stock parts.new).bays ≡ swapped_pages (sealing_by sealing.now) (computed_of made.now) (pages_of (P.stock parts.old).bays) }
    ensures locks { holders_of (P.stock parts.new).bays ≡ relocked number [] (holders_of (P.stock parts.old).bays) }
    ensures contexts { (P.stock parts.new).contexts ≡ (P.stock parts.old).contexts }
    ensures kept { P.kept parts.old parts.new }
{
    match sealing.way {
        Way::Out => seal_pages(parts, number, sealing, &made.entry, &made.words, shown),
        Way::In => open_pages(parts, number, sealing, &made.entry, &made.words, shown),
    }
}
