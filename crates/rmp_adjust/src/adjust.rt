ghost use Rattle.std.specs.Prelude.{◌≡◌, ◌≢◌, ℕ, ◌<◌, None, Some, IsOk, IsErr};
ghost use Rattle.snp_model.specs.Accesses.{IsPlace};
ghost use Rattle.snp_model.specs.Entries.{facts_at, holder_at, refusal_answer, with_lock, without_locks};
ghost use Rattle.snp_model.specs.Locks.{over_lock, page_lock};
ghost use Rattle.snp_model.specs.Validation.{adjust_further, adjust_input, adjust_refusal, adjusted_facts, exceeds};

use rmp_check::validate_refusal;
use rmp_table::RmpRegion;
use snp_model::{InUse, PageSize, Place, Refusal, RmpEntry};

/// The status of what is tested before the walk (APM volume 3, RMPADJUST): 1 for no such VMPL or permissions, 2
/// for a target that is not greater than the actor's VMPL.
#[tactic(auto, unfolding(snp_model::specs::Validation::adjust_input))]
pub fn adjust_input(vmpl: u8, target: u8, mask: u8) -> Option<u8>
    ensures status { result ≡ adjust_input vmpl target mask }
    ensures passes { result ≡ None → (target < 4) × (mask < 16) × (vmpl < target) }
{
    if target > 3 || mask > 15 {
        Some(1)
    } else if target <= vmpl {
        Some(2)
    } else {
        None
    }
}

/// Locks the page of RMPADJUST's frame for an actor, with the tests. The size is the one that is asked. A refusal
/// is that of the first row that applies, and changes nothing. Takes no memory.
pub fn adjust_lock(
    rmp: &mut RmpRegion,
    at: &Place,
    size: PageSize,
    mask: u8,
    vmsa: bool,
    actor: u32,
) -> Result<(), Refusal>
    requires place { IsPlace at.now }
    requires not_held { holder_at rmp.old at.now.slot ≢ Some actor }
    ensures answer { result ≡ refusal_answer (adjust_refusal at.now size mask vmsa (facts_at rmp.old at.now.slot) (holder_at rmp.old at.now.slot)) }
    ensures another { (holder : ℕ) → result ≡ Err (Refusal.InUse holder) → holder ≢ actor }
    ensures facts { rmp.new.facts ≡ rmp.old.facts }
    ensures locked { IsOk result → let lock = page_lock (facts_at rmp.old at.now.slot).size at.now.slot in holder_at rmp.new ≡ with_lock lock actor (holder_at rmp.old) }
    ensures refused { IsErr result → rmp.new ≡ rmp.old }
{
    let entry = rmp.effective(at.slot);
    let holder = rmp.holder(at.slot);
    match adjust_refusal(&entry, holder, at, size, mask, vmsa) {
        Some(refusal) => Err(refusal),
        None => match rmp.lock(at.slot, actor) {
            Ok(()) => Ok(()),
            Err(InUse { holder }) => Err(Refusal::InUse { holder }),
        },
    }
}

/// Sets a VMPL's permissions of the page of a frame, and VMSA where the actor's VMPL is 0. Releases the actor's
/// locks. Takes no memory.
pub fn adjust_commit(
    rmp: &mut RmpRegion,
    slot: usize,
    vmpl: u8,
    target: u8,
    mask: u8,
    vmsa: bool,
    actor: u32,
)
    requires slot_below { slot < 512 }
    requires held { holder_at rmp.old slot ≡ Some actor }
    requires input { adjust_input vmpl target mask ≡ None }
    ensures facts { facts_at rmp.new ≡ over_lock (page_lock (facts_at rmp.old slot).size slot) (adjusted_facts vmpl target mask vmsa) (facts_at rmp.old) }
    ensures locks { holder_at rmp.new ≡ without_locks actor (holder_at rmp.old) }
{
    adjust_page(rmp, slot, vmpl, target, mask, vmsa);
    rmp.unlock(actor);
}

// Sets a VMPL's permissions of a page, and VMSA where the actor's VMPL is 0.
fn adjust_page(rmp: &mut RmpRegion, slot: usize, vmpl: u8, target: u8, mask: u8, vmsa: bool)
    requires slot_below { slot < 512 }
    requires target_below { target < 4 }
    ensures facts { facts_at rmp.new ≡ over_lock (page_lock (facts_at rmp.old slot).size slot) (adjusted_facts vmpl target mask vmsa) (facts_at rmp.old) }
    ensures locks { rmp.new.holders ≡ rmp.old.holders }
{
    rmp.whole();
    let entry = rmp.page_entry(slot);
    let entry = adjusted(&entry, vmpl, target, mask, vmsa);
    rmp.write_page(slot, entry);
}

// The refusal of the first row that applies.
#[tactic(auto, unfolding(snp_model::specs::Validation::adjust_refusal))]
fn adjust_refusal(
    entry: &RmpEntry,
    holder: Option<u32>,
    at: &Place,
    size: PageSize,
    mask: u8,
    vmsa: bool,
) -> Option<Refusal>
    requires { IsPlace at.now }
    ensures refusal { result ≡ adjust_refusal at.now size mask vmsa entry.now holder }
    ensures unlocked { result ≡ None → holder ≡ None }
    ensures in_use { (other : ℕ) → result ≡ Some (Refusal.InUse other) → holder ≡ Some other }
{
    match validate_refusal(entry, holder, at, size) {
        Some(refusal) => Some(refusal),
        None => further_refusal(entry, at, mask, vmsa),
    }
}

// The refusal of the rows that follow those of PVALIDATE.
#[tactic(auto, unfolding(snp_model::specs::Validation::adjust_further))]
fn further_refusal(entry: &RmpEntry, at: &Place, mask: u8, vmsa: bool) -> Option<Refusal>
    requires { IsPlace at.now }
    ensures refusal { result ≡ adjust_further at.now mask vmsa entry.now }
    ensures not_in_use { (other : ℕ) → result ≢ Some (Refusal.InUse other) }
{
    if !entry.validated {
        Some(Refusal::Vc(0x404))
    } else if exceeds(mask, entry.perms[at.vmpl as usize]) {
        Some(Refusal::Status(2))
    } else if vmsa && at.vmpl != 0 {
        Some(Refusal::Status(2))
    } else {
        None
    }
}

// Whether a mask has a permission that others lack.
fn exceeds(mask: u8, permissions: u8) -> bool
    ensures { result ≡ exceeds mask permissions }
{
    mask & permissions != mask
}

// An entry with a VMPL's permissions changed, and VMSA where the actor's VMPL is 0.
#[tactic(auto, unfolding(snp_model::specs::Validation::adjusted_facts))]
fn adjusted(entry: &RmpEntry, vmpl: u8, target: u8, mask: u8, vmsa: bool) -> RmpEntry
    requires { target < 4 }
    ensures adjusted { result ≡ adjusted_facts vmpl target mask vmsa entry.now }
    ensures size { result.size ≡ entry.now.size }
    ensures assigned { result.assigned ≡ entry.now.assigned }
    ensures gpn { result.gpn ≡ entry.now.gpn }
{
    let mut perms = entry.perms;
    perms[target as usize] = mask;
    RmpEntry {
        perms,
        vmsa: if vmpl == 0 { vmsa } else { entry.vmsa },
        ..*entry
    }
}
