ghost use Rattle.std.specs.Prelude.{◌≡◌, ◌<◌, true, length, Some};
ghost use Rattle.snp_model.specs.FirmwareStep.{computed_move};
ghost use Rattle.snp_model.specs.Sealing.{compute_of, sealing_of};
ghost use Rattle.run_laws.specs.KeptLocks.{recontexted, relocked};
ghost use Rattle.machine_core.specs.Bays.{contents_of, locks_of, view_on};
ghost use Rattle.machine_core.specs.Commits.{IsBoundedCommand, MayCommit};
ghost use Rattle.machine_core.specs.Moves.{context_by, locks_by, move_by, standing_with, takes_page};
ghost use Rattle.machine_core.specs.Seals.{sealing_by};

use crate::actor::ActorState;
use crate::compute::make;
use crate::made_page::MadePage;
use crate::parts::Parts;
use crate::refusal::release_all;
use crate::sealing::Sealing;
use crate::shown::Shown;
use snp_model::{Command, GuestSpec};

/// The compute of a command that has locked all that it locks: makes the page that it seals or opens at the place for it. Where
/// it is refused, all that the attempt has locked is released.
pub fn compute<P: Parts>(
    parts: &mut P,
    number: u32,
    frames: u32,
    guests: &[GuestSpec],
    actor: &ActorState,
    command: &Command,
    sealing: &Sealing,
    page: &mut MadePage,
    shown: &mut Shown,
)
    requires command { IsBoundedCommand command.now }
    requires seals { sealing_of command.now ≡ Some (sealing_by sealing.now) }
    requires may { MayCommit frames guests.now number command.now actor.now (P.stock parts.old) }
    ensures moves { computed_move (contents_of (P.stock parts.old) guests.now) actor.now (compute_of (contents_of (P.stock parts.old) guests.now) (sealing_by sealing.now))
        ≡ move_by shown.new (view_on (P.stock parts.new) guests.now) (standing_with page.new shown.new actor.now.standing) }
    ensures locks { (locks_of (P.stock parts.new)).holder ≡ relocked number (locks_by shown.new actor.now.standing) (locks_of (P.stock parts.old)).holder }
    ensures context_locks { (locks_of (P.stock parts.new)).context_holder ≡ recontexted number (context_by shown.new actor.now.standing) (locks_of (P.stock parts.old)).context_holder }
    ensures room { takes_page shown.new.lock ≡ true → length actor.now.standing.locks < 3 }
    ensures kept { P.kept parts.old parts.new }
{
    match make(parts, sealing, &mut page.words) {
        Ok(entry) => {
            page.entry = entry;
            *shown = Shown::made();
        }
        Err(refusal) => {
            release_all(parts, number, actor);
            *shown = Shown::compute_refused(refusal);
        }
    }
}
