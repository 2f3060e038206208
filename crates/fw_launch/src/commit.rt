ghost use Rattle.std.specs.Prelude.{◌≡◌, ◌≢◌, ◌<◌, Some};
ghost use Rattle.snp_model.specs.declared.entry.PageSize.TheVariants.{Small};
ghost use Rattle.snp_model.specs.Entries.{facts_at, holder_at, region_pages, released, without_locks};
ghost use Rattle.snp_model.specs.FirmwareCommits.{at_frame, context_after, context_page, counted, launched_into, launched_page};
ghost use Rattle.snp_model.specs.FirmwareLocks.{last_counter};
ghost use Rattle.snp_model.specs.HeldContexts.{with_context};
ghost use Rattle.snp_model.specs.Measurement.{IsLaunchType};
ghost use Rattle.fw_launch.specs.Commits.{HasPassed, pages_committed};

use guest_context::GuestContext;
use launch_digest::Digest;
use phys_memory::Region;
use rmp_table::RmpRegion;
use snp_model::{Command, GuestState, Kind, RmpEntry};

/// The page type ZERO: the page gets zero words.
const ZERO: u8 = 3;

/// Makes the page of `gctx_create` and of `launch_update`, of 4 KB, in a frame that the actor has locked, and releases the
/// actor's locks. The pages of other commands, and all other frames, stay. Takes no memory.
pub fn page_commit(
    memory: &mut Region,
    rmp: &mut RmpRegion,
    command: &Command,
    slot: usize,
    actor: u32,
)
    requires slot_below { slot < 512 }
    requires held { holder_at rmp.old slot ≡ Some actor }
    requires small { (facts_at rmp.old slot).size ≡ Small }
    ensures pages { region_pages memory.new rmp.new ≡ pages_committed command.now slot (region_pages memory.old rmp.old) }
    ensures locks { holder_at rmp.new ≡ without_locks actor (holder_at rmp.old) }
{
    change_page(memory, rmp, command, slot);
    rmp.unlock(actor);
}

/// Changes the context of a command's guest, which the actor has locked, but for its root, and releases the lock. `gpn` and
/// `words` are those of a launched page after `page_commit`; other commands pass over them. Takes no memory.
pub fn context_commit(
    context: &mut GuestContext,
    command: &Command,
    gpn: u64,
    words: &[u64; 512],
    actor: u32,
)
    requires held { context.old.holder ≡ Some actor }
    requires tested { HasPassed command.now context.old.context }
    ensures context { context.new.context ≡ context_after command.now gpn words.now context.old.context }
    ensures lock { context.new.holder ≡ released actor context.old.holder }
{
    change_context(context, command, gpn, words);
    context.unlock(actor);
}

// Makes the page of a command.
#[tactic(auto, unfolding(crate::specs::Commits::pages_committed))]
fn change_page(memory: &mut Region, rmp: &mut RmpRegion, command: &Command, slot: usize)
    requires slot_below { slot < 512 }
    requires small { (facts_at rmp.old slot).size ≡ Small }
    ensures pages { region_pages memory.new rmp.new ≡ pages_committed command.now slot (region_pages memory.old rmp.old) }
    ensures locks { rmp.new.holders ≡ rmp.old.holders }
{
    match command {
        Command::GctxCreate { .. } => make_context(memory, rmp, slot),
        Command::LaunchUpdate {
            page_type,
            perms,
            ..
        } => launch(memory, rmp, slot, *page_type, perms),
        Command::Activate { .. }
        | Command::LaunchStart { .. }
        | Command::LaunchFinish { .. }
        | Command::MdInit { .. }
        | Command::PageMove { .. }
        | Command::SwapOut { .. }
        | Command::SwapIn { .. }
        | Command::Reclaim { .. }
        | Command::MdOut { .. }
        | Command::MdIn { .. }
        | Command::MdRootOut { .. }
        | Command::MdRootIn { .. } => {}
    }
}

// Changes the context of a command's guest; its lock stays.
#[tactic(auto, unfolding(snp_model::specs::FirmwareCommits::context_after))]
fn change_context(context: &mut GuestContext, command: &Command, gpn: u64, words: &[u64; 512])
    requires tested { HasPassed command.now context.old.context }
    ensures { context.new ≡ with_context (context_after command.now gpn words.now context.old.context) context.old }
{
    match command {
        Command::GctxCreate { .. } => {
            context.state = GuestState::Init;
            context.digest = Digest::zero();
        }
        Command::Activate { .. } => context.bound = true,
        Command::LaunchStart { .. } => context.state = GuestState::Launching,
        Command::LaunchUpdate {
            page_type,
            imi,
            perms,
            ..
        } => measure(context, *page_type, *imi, *perms, gpn, words),
        Command::LaunchFinish { .. } => context.state = GuestState::Running,
        Command::SwapOut { .. } | Command::MdOut { .. } | Command::MdRootOut { .. } => {
            count(context);
        }
        Command::MdInit { .. }
        | Command::PageMove { .. }
        | Command::SwapIn { .. }
        | Command::Reclaim { .. }
        | Command::MdIn { .. }
        | Command::MdRootIn { .. } => {}
    }
}

// Takes a launched page into a context.
#[tactic(auto, unfolding(snp_model::specs::FirmwareCommits::launched_into))]
fn measure(
    context: &mut GuestContext,
    page_type: u8,
    imi: bool,
    perms: [u8; 3],
    gpn: u64,
    words: &[u64; 512],
)
    requires { IsLaunchType page_type }
    ensures { context.new ≡ with_context (launched_into page_type imi perms gpn words.now context.old.context) context.old }
{
    context.digest.extend(page_type, imi, perms, gpn, words);
    context.pages = context.pages.saturating_add(1);
}

// One more page was sealed under a context; there was a counter for it.
fn count(context: &mut GuestContext)
    requires { context.old.context.iv ≢ last_counter }
    ensures { context.new ≡ with_context (counted context.old.context) context.old }
{
    let _ = context.next_iv();
}

// A Firmware page becomes a Context page; its words stay.
fn make_context(memory: &Region, rmp: &mut RmpRegion, slot: usize)
    requires slot_below { slot < 512 }
    requires small { (facts_at rmp.old slot).size ≡ Small }
    ensures pages { region_pages memory.now rmp.new ≡ at_frame slot (context_page (region_pages memory.now rmp.old slot)) (region_pages memory.now rmp.old) }
    ensures locks { rmp.new.holders ≡ rmp.old.holders }
{
    memory.whole();
    let entry = RmpEntry {
        kind: Kind::Context,
        ..rmp.effective(slot)
    };
    rmp.write_entry(slot, entry);
}

// A Pre-Guest page becomes Guest-Valid, with permissions for VMPL1 to VMPL3; one of type ZERO gets zero words.
fn launch(memory: &mut Region, rmp: &mut RmpRegion, slot: usize, page_type: u8, perms: &[u8; 3])
    requires slot_below { slot < 512 }
    requires small { (facts_at rmp.old slot).size ≡ Small }
    ensures pages { region_pages memory.new rmp.new ≡ at_frame slot (launched_page page_type perms.now (region_pages memory.old rmp.old slot)) (region_pages memory.old rmp.old) }
    ensures locks { rmp.new.holders ≡ rmp.old.holders }
{
    memory.whole();
    let entry = RmpEntry {
        validated: true,
        immutable: false,
        perms: [15, perms[0], perms[1], perms[2]],
        ..rmp.effective(slot)
    };
    rmp.write_entry(slot, entry);
    if page_type == ZERO {
        memory.page_fill(slot, 0);
    }
}
