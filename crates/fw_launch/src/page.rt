ghost use Rattle.std.specs.Prelude.{◌≡◌, ◌≢◌, ℕ, ◌<◌, Some, None, false, IsOk, IsErr};
ghost use Rattle.snp_model.specs.declared.entry.PageSize.TheVariants.{Small};
ghost use Rattle.snp_model.specs.Entries.{facts_at, holder_at, with_lock};
ghost use Rattle.snp_model.specs.FirmwareLocks.{firmware_answer, page_refusal, takes_large};
ghost use Rattle.snp_model.specs.Locks.{page_lock};
ghost use Rattle.snp_model.specs.PageStates.{has_owner, of_three, of_two, target_alone};
ghost use Rattle.snp_model.specs.Verdicts.{is_large};

use crate::status::{INVALID_PAGE_OWNER, INVALID_PAGE_SIZE, INVALID_PAGE_STATE};
use page_states::{allowed, state_of};
use rmp_table::RmpRegion;
use snp_model::{Command, FwRefusal, PageSize, Part};

/// Locks the page in which a frame stands, for an actor, as this part of a command, with the tests; `asid` is that of the
/// command's guest. A refusal is that of the first test that applies, and changes nothing: another actor holds the lock, the
/// page is of 2 MB and the command isn't `page_reclaim` (0x19), its state isn't one that the command takes (0x1A), it has to
/// be the guest's and isn't (0x1C). What the words of a page refuse is tested by `fw_swap`. Takes no memory.
pub fn page_lock(
    rmp: &mut RmpRegion,
    command: &Command,
    part: Part,
    slot: usize,
    asid: u16,
    actor: u32,
) -> Result<(), FwRefusal>
    requires slot_below { slot < 512 }
    requires not_held { holder_at rmp.old slot ≢ Some actor }
    ensures answer { result ≡ firmware_answer (page_refusal command.now part (facts_at rmp.old slot) (holder_at rmp.old slot) asid) }
    ensures another { (holder : ℕ) → result ≡ Err (FwRefusal.InUse holder) → holder ≢ actor }
    ensures small { IsOk result → takes_large command.now ≡ false → (facts_at rmp.old slot).size ≡ Small }
    ensures facts { rmp.new.facts ≡ rmp.old.facts }
    ensures held { IsOk result → holder_at rmp.new slot ≡ Some actor }
    ensures locked { IsOk result → holder_at rmp.new ≡ with_lock (page_lock (facts_at rmp.old slot).size slot) actor (holder_at rmp.old) }
    ensures refused { IsErr result → rmp.new ≡ rmp.old }
{
    match page_test(rmp, command, part, slot, asid) {
        Err(refusal) => Err(refusal),
        Ok(()) => {
            // No actor holds it, so it is taken.
            let _ = rmp.lock(slot, actor);
            Ok(())
        }
    }
}

/// The tests of `page_lock` alone: what it would answer.
#[tactic(auto, unfolding(snp_model::specs::FirmwareLocks::page_refusal))]
pub fn page_test(
    rmp: &RmpRegion,
    command: &Command,
    part: Part,
    slot: usize,
    asid: u16,
) -> Result<(), FwRefusal>
    requires { slot < 512 }
    ensures answer { result ≡ firmware_answer (page_refusal command.now part (facts_at rmp.now slot) (holder_at rmp.now slot) asid) }
    ensures holder { (holder : ℕ) → result ≡ Err (FwRefusal.InUse holder) → holder_at rmp.now slot ≡ Some holder }
    ensures free { IsOk result → holder_at rmp.now slot ≡ None }
    ensures small { IsOk result → takes_large command.now ≡ false → (facts_at rmp.now slot).size ≡ Small }
{
    let entry = rmp.effective(slot);
    if let Some(holder) = rmp.holder(slot) {
        return Err(FwRefusal::InUse { holder });
    }
    if is_large(entry.size) && !takes_large(command) {
        return Err(FwRefusal::Status(INVALID_PAGE_SIZE));
    }
    if !allowed(command, part, state_of(&entry)) {
        return Err(FwRefusal::Status(INVALID_PAGE_STATE));
    }
    if has_owner(command, part) && entry.asid != asid {
        return Err(FwRefusal::Status(INVALID_PAGE_OWNER));
    }
    Ok(())
}

// Whether a page is of 2 MB.
fn is_large(size: PageSize) -> bool
    ensures large { result ≡ is_large size }
    ensures small { result ≡ false → size ≡ Small }
{
    matches!(size, PageSize::Large)
}

// Whether a command acts on pages of 2 MB.
fn takes_large(command: &Command) -> bool
    ensures { result ≡ takes_large command.now }
{
    matches!(command, Command::Reclaim { .. })
}

// Whether a command asks that its guest owns this part of it.
#[tactic(auto, unfolding(snp_model::specs::PageStates::has_owner))]
fn has_owner(command: &Command, part: Part) -> bool
    ensures { result ≡ has_owner command.now part }
{
    match command {
        Command::LaunchUpdate { .. } => matches!(part, Part::Target),
        Command::PageMove { .. } => matches!(part, Part::Source | Part::Target),
        Command::SwapOut { .. } => matches!(part, Part::Source),
        Command::SwapIn { .. } => matches!(part, Part::Target),
        Command::GctxCreate { .. }
        | Command::Activate { .. }
        | Command::LaunchStart { .. }
        | Command::LaunchFinish { .. }
        | Command::MdInit { .. }
        | Command::Reclaim { .. }
        | Command::MdOut { .. }
        | Command::MdIn { .. }
        | Command::MdRootOut { .. }
        | Command::MdRootIn { .. } => false,
    }
}
