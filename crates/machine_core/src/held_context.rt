ghost use Rattle.std.specs.Prelude.{◌≡◌, ◌↔◌, List, None, IsSome, IsTrue};
ghost use Rattle.fw_launch.specs.Commits.{HasPassed};
ghost use Rattle.snp_model.specs.FirmwareCommits.{at_guest, context_after};
ghost use Rattle.snp_model.specs.FirmwareLocks.{guest_refusal};
ghost use Rattle.snp_model.specs.State.{nothing_taken};
ghost use Rattle.snp_model.specs.declared.scenario.GuestSpec.{GuestSpec};
ghost use Rattle.run_laws.specs.KeptLocks.{recontexted};
ghost use Rattle.machine_core.specs.Bays.{context_holders_of, contexts_of};
ghost use Rattle.machine_core.specs.Commands.{HoldsContext, HoldsNoContext, context_refused, context_shown};
ghost use Rattle.machine_core.specs.Moves.{context_by};

use crate::parts::Parts;
use crate::shown::Shown;
use snp_model::{Command, FwRefusal, GuestSpec};

/// A parameter is wrong (SEV-SNP firmware ABI 56860, 6).
const INVALID_PARAM: u16 = 0x16;

/// The event that locks the context of the guest that a command names, with its tests: an undeclared guest has none. The
/// actor has locked no context so far.
pub fn lock_context<P: Parts>(
    parts: &mut P,
    number: u32,
    guests: &[GuestSpec],
    command: &Command,
    guest: u8,
    shown: &mut Shown,
)
    requires has { guest_refusal guests.now guest ≡ None → IsSome ((P.stock parts.old).contexts guest) }
    requires none { HoldsNoContext number (P.stock parts.old) }
    ensures shown { shown.new ≡ context_shown guest (context_refused guests.now command.now guest (P.stock parts.old)) }
    ensures bays { (P.stock parts.new).bays ≡ (P.stock parts.old).bays }
    ensures contexts { contexts_of (P.stock parts.new).contexts guests.now ≡ contexts_of (P.stock parts.old).contexts guests.now }
    ensures locks { context_holders_of (P.stock parts.new).contexts ≡ recontexted number (context_by shown.new nothing_taken) (context_holders_of (P.stock parts.old).contexts) }
    ensures kept { P.kept parts.old parts.new }
{
    if !is_declared(guests, guest) {
        *shown = Shown::context_refused(guest, FwRefusal::Status(INVALID_PARAM));
        return;
    }
    let context = parts.context_mut(guest);
    match fw_launch::context_lock(context, command, guests, number) {
        Ok(()) => *shown = Shown::locked_context(guest),
        Err(refusal) => *shown = Shown::context_refused(guest, refusal),
    }
}

// Whether a guest is declared.
#[tactic(auto, unfolding(snp_model::specs::FirmwareLocks::guest_refusal))]
fn is_declared(guests: &[GuestSpec], guest: u8) -> bool
    ensures { IsTrue result ↔ (guest_refusal guests.now guest ≡ None) }
{
    guest != 0 && guest as usize <= guests.len()
}

/// The commit of a command to the context of its guest, which the actor has locked; the lock is released. `gpn` and `words`
/// are those of a page that is launched; other commands pass over them.
pub fn commit_context<P: Parts>(
    parts: &mut P,
    number: u32,
    command: &Command,
    guest: u8,
    gpn: u64,
    words: &[u64; 512],
)
    requires has { IsSome ((P.stock parts.old).contexts guest) }
    requires holds { HoldsContext number guest (P.stock parts.old) }
    requires tested { (guests : List GuestSpec) × HasPassed command.now (contexts_of (P.stock parts.old).contexts guests guest) }
    ensures bays { (P.stock parts.new).bays ≡ (P.stock parts.old).bays }
    ensures contexts { (guests : List GuestSpec) → contexts_of (P.stock parts.new).contexts guests
        ≡ at_guest guest (context_after command.now gpn words.now (contexts_of (P.stock parts.old).contexts guests guest)) (contexts_of (P.stock parts.old).contexts guests) }
    ensures locks { context_holders_of (P.stock parts.new).contexts ≡ recontexted number None (context_holders_of (P.stock parts.old).contexts) }
    ensures kept { P.kept parts.old parts.new }
{
    let context = parts.context_mut(guest);
    fw_launch::context_commit(context, command, gpn, words, number);
}

/// Releases the lock of the context of a guest, which the actor has.
pub fn release_context<P: Parts>(parts: &mut P, number: u32, guest: u8)
    requires has { IsSome ((P.stock parts.old).contexts guest) }
    requires holds { HoldsContext number guest (P.stock parts.old) }
    ensures bays { (P.stock parts.new).bays ≡ (P.stock parts.old).bays }
    ensures contexts { (guests : List GuestSpec) → contexts_of (P.stock parts.new).contexts guests ≡ contexts_of (P.stock parts.old).contexts guests }
    ensures locks { context_holders_of (P.stock parts.new).contexts ≡ recontexted number None (context_holders_of (P.stock parts.old).contexts) }
    ensures kept { P.kept parts.old parts.new }
{
    let context = parts.context_mut(guest);
    context.unlock(number);
}
