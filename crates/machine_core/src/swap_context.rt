ghost use Rattle.std.specs.Prelude.{◌≡◌, List, None, Some, IsSome};
ghost use Rattle.fw_launch.specs.Commits.{HasPassed};
ghost use Rattle.snp_model.specs.declared.scenario.GuestSpec.{GuestSpec};
ghost use Rattle.snp_model.specs.FirmwareCommits.{root_after, with_root};
ghost use Rattle.snp_model.specs.FirmwareStep.{contexts_after};
ghost use Rattle.snp_model.specs.HeldContexts.{with_context};
ghost use Rattle.snp_model.specs.Sealing.{sealing_of};
ghost use Rattle.snp_model.specs.State.{Pages};
ghost use Rattle.run_laws.specs.KeptLocks.{recontexted};
ghost use Rattle.machine_core.specs.Bays.{context_holders_of, contexts_of};
ghost use Rattle.machine_core.specs.Commands.{HoldsContext};
ghost use Rattle.machine_core.specs.Seals.{made_by};

use crate::parts::Parts;
use fw_launch::context_commit;
use guest_context::GuestContext;
use snp_model::{Command, MetaEntry};

/// The commit of a command that seals or opens a page to the context of its guest, which the actor has locked; the lock is
/// released. Where a page is sealed, the counter is one higher; the root becomes the entry of a metadata page that is sealed
/// under it, and isn't in use any more once that page is opened. It depends on no page, and what `words` hold doesn't matter.
pub fn commit_swap_context<P: Parts>(
    parts: &mut P,
    number: u32,
    command: &Command,
    guest: u8,
    entry: &MetaEntry,
    words: &[u64; 512],
)
    requires has { IsSome ((P.stock parts.old).contexts guest) }
    requires holds { HoldsContext number guest (P.stock parts.old) }
    requires tested { (guests : List GuestSpec) × HasPassed command.now (contexts_of (P.stock parts.old).contexts guests guest) }
    requires sealing { IsSome (sealing_of command.now) }
    ensures bays { (P.stock parts.new).bays ≡ (P.stock parts.old).bays }
    ensures contexts { (guests : List GuestSpec) (pages : Pages) → contexts_of (P.stock parts.new).contexts guests
        ≡ contexts_after (Some guest) command.now (made_by entry.now words.now) pages (contexts_of (P.stock parts.old).contexts guests) }
    ensures locks { context_holders_of (P.stock parts.new).contexts ≡ recontexted number None (context_holders_of (P.stock parts.old).contexts) }
    ensures kept { P.kept parts.old parts.new }
{
    let context = parts.context_mut(guest);
    context_commit(context, command, 0, words, number);
    change_root(context, command, entry);
}

// Changes the root of a context as a command does.
#[tactic(auto, unfolding(snp_model::specs::FirmwareCommits::root_after))]
fn change_root(context: &mut GuestContext, command: &Command, entry: &MetaEntry)
    ensures { context.new ≡ with_context (with_root (root_after command.now (Some entry.now) context.old.context.root) context.old.context) context.old }
{
    match command {
        Command::MdRootOut { .. } => context.set_root(Some(*entry)),
        Command::MdRootIn { .. } => context.set_root(None),
        Command::GctxCreate { .. }
        | Command::Activate { .. }
        | Command::LaunchStart { .. }
        | Command::LaunchUpdate { .. }
        | Command::LaunchFinish { .. }
        | Command::MdInit { .. }
        | Command::PageMove { .. }
        | Command::SwapOut { .. }
        | Command::SwapIn { .. }
        | Command::Reclaim { .. }
        | Command::MdOut { .. }
        | Command::MdIn { .. } => {}
    }
}
