ghost use Rattle.std.specs.Prelude.{◌≡◌, [], ◌<◌, ◌^◌, List, None, Some, IsSome};
ghost use Rattle.fw_launch.specs.Commits.{HasPassed, pages_committed};
ghost use Rattle.snp_model.specs.declared.entry.PageSize.TheVariants.{Small};
ghost use Rattle.snp_model.specs.declared.event.Deed.TheVariants.{CommitContext};
ghost use Rattle.snp_model.specs.declared.event.Outcome.TheVariants.{Firmware};
ghost use Rattle.snp_model.specs.declared.scenario.GuestSpec.{GuestSpec};
ghost use Rattle.snp_model.specs.Firmware.{success};
ghost use Rattle.snp_model.specs.FirmwareCommits.{at_guest, context_after};
ghost use Rattle.snp_model.specs.FirmwareStep.{page_shown};
ghost use Rattle.snp_model.specs.Locks.{page_lock};
ghost use Rattle.run_laws.specs.KeptLocks.{recontexted, relocked};
ghost use Rattle.machine_core.specs.Bays.{HasFrame, context_holders_of, contexts_of, holders_of, pages_of};
ghost use Rattle.machine_core.specs.CommandPages.{IsTestedFrame};
ghost use Rattle.machine_core.specs.Commands.{HoldsContext};
ghost use Rattle.machine_core.specs.Ranges.{HoldsLock};

use crate::held_context::commit_context;
use crate::parts::Parts;
use crate::shown::Shown;
use fw_launch::page_commit;
use snp_model::{Command, Deed, Outcome, RmpEntry};

/// The commit of SNP_GCTX_CREATE or SNP_LAUNCH_UPDATE, which releases its two locks: the page is made, and then the guest's
/// context takes in the words that the page has then. It names the frame with the guest page number and the size that it
/// had. `words` is a place for the words of one page; what it holds afterwards doesn't matter.
pub fn commit_launched<P: Parts>(
    parts: &mut P,
    number: u32,
    command: &Command,
    guest: u8,
    frame: u64,
    words: &mut [u64; 512],
    shown: &mut Shown,
)
    requires has { HasFrame (P.stock parts.old) frame }
    requires has_context { IsSome ((P.stock parts.old).contexts guest) }
    requires page_tested { IsTestedFrame frame (P.stock parts.old) }
    requires tested { (guests : List GuestSpec) × HasPassed command.now (contexts_of (P.stock parts.old).contexts guests guest) }
    requires holds { HoldsLock number (page_lock Small frame) (P.stock parts.old) }
    requires holds_context { HoldsContext number guest (P.stock parts.old) }
    ensures shown { shown.new ≡ record { deed = page_shown frame (pages_of (P.stock parts.old).bays frame); outcome = Some (Firmware success); lock = None } }
    ensures pages { pages_of (P.stock parts.new).bays ≡ pages_committed command.now frame (pages_of (P.stock parts.old).bays) }
    ensures contexts { (guests : List GuestSpec) → let page = pages_of (P.stock parts.new).bays frame in contexts_of (P.stock parts.new).contexts guests
        ≡ at_guest guest (context_after command.now page.facts.gpn page.words (contexts_of (P.stock parts.old).contexts guests guest)) (contexts_of (P.stock parts.old).contexts guests) }
    ensures locks { holders_of (P.stock parts.new).bays ≡ relocked number [] (holders_of (P.stock parts.old).bays) }
    ensures context_locks { context_holders_of (P.stock parts.new).contexts ≡ recontexted number None (context_holders_of (P.stock parts.old).contexts) }
    ensures kept { P.kept parts.old parts.new }
{
    let frame = frame as u32;
    let entry = commit_page(parts, number, command, frame, words);
    commit_context(parts, number, command, guest, entry.gpn, words);
    let deed = Deed::Commit {
        frame,
        gpn: entry.gpn,
        size: entry.size,
    };
    *shown = Shown::last(deed, Outcome::Firmware(0));
}

// Makes the locked page of such a command and releases its lock: gives the entry that it had, and in `words` the words that
// it then has.
fn commit_page<P: Parts>(
    parts: &mut P,
    number: u32,
    command: &Command,
    frame: u32,
    words: &mut [u64; 512],
) -> RmpEntry
    requires has { HasFrame (P.stock parts.old) frame }
    requires tested { IsTestedFrame frame (P.stock parts.old) }
    requires holds { HoldsLock number (page_lock Small frame) (P.stock parts.old) }
    ensures entry { result ≡ (pages_of (P.stock parts.old).bays frame).facts }
    ensures words { words.new ≡ (pages_of (P.stock parts.new).bays frame).words }
    ensures pages { pages_of (P.stock parts.new).bays ≡ pages_committed command.now frame (pages_of (P.stock parts.old).bays) }
    ensures contexts { (P.stock parts.new).contexts ≡ (P.stock parts.old).contexts }
    ensures locks { holders_of (P.stock parts.new).bays ≡ relocked number [] (holders_of (P.stock parts.old).bays) }
    ensures kept { P.kept parts.old parts.new }
{
    let slot = (frame % 512) as usize;
    let bay = parts.bay_mut(frame / 512);
    let entry = bay.rmp.effective(slot);
    page_commit(&mut bay.memory, &mut bay.rmp, command, slot, number);
    bay.memory.page_copy_out(slot, words);
    entry
}

/// The commit of SNP_ACTIVATE, SNP_LAUNCH_START or SNP_LAUNCH_FINISH, which changes the context of its guest alone and
/// releases the lock. The words don't matter.
pub fn commit_guest<P: Parts>(
    parts: &mut P,
    number: u32,
    command: &Command,
    guest: u8,
    words: &[u64; 512],
    shown: &mut Shown,
)
    requires has { IsSome ((P.stock parts.old).contexts guest) }
    requires tested { (guests : List GuestSpec) × HasPassed command.now (contexts_of (P.stock parts.old).contexts guests guest) }
    requires holds { HoldsContext number guest (P.stock parts.old) }
    ensures shown { shown.new ≡ record { deed = CommitContext guest; outcome = Some (Firmware success); lock = None } }
    ensures bays { (P.stock parts.new).bays ≡ (P.stock parts.old).bays }
    ensures contexts { (guests : List GuestSpec) → contexts_of (P.stock parts.new).contexts guests
        ≡ at_guest guest (context_after command.now 0 words.now (contexts_of (P.stock parts.old).contexts guests guest)) (contexts_of (P.stock parts.old).contexts guests) }
    ensures context_locks { context_holders_of (P.stock parts.new).contexts ≡ recontexted number None (context_holders_of (P.stock parts.old).contexts) }
    ensures kept { P.kept parts.old parts.new }
{
    commit_context(parts, number, command, guest, 0, words);
    *shown = Shown::last(Deed::CommitContext { guest }, Outcome::Firmware(0));
}
