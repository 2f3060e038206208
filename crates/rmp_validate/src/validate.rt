ghost use Rattle.std.specs.Prelude.{◌≡◌, ◌≢◌, ℕ, ◌<◌, Some, IsOk, IsErr};
ghost use Rattle.snp_model.specs.Accesses.{IsPlace};
ghost use Rattle.snp_model.specs.Entries.{facts_at, holder_at, refusal_answer, with_lock, without_locks};
ghost use Rattle.snp_model.specs.Locks.{over_lock, page_lock};
ghost use Rattle.snp_model.specs.Validation.{carry, validate_refusal, validated_facts};

use rmp_check::validate_refusal;
use rmp_table::RmpRegion;
use snp_model::{InUse, PageSize, Place, Refusal, RmpEntry};

/// Locks the page of PVALIDATE's frame for an actor, with the tests (APM volume 3, PVALIDATE). The size is the
/// one that is asked. A refusal is that of the first row that applies, and changes nothing. Takes no memory.
pub fn validate_lock(
    rmp: &mut RmpRegion,
    at: &Place,
    size: PageSize,
    actor: u32,
) -> Result<(), Refusal>
    requires place { IsPlace at.now }
    requires not_held { holder_at rmp.old at.now.slot ≢ Some actor }
    ensures answer { result ≡ refusal_answer (validate_refusal at.now size (facts_at rmp.old at.now.slot) (holder_at rmp.old at.now.slot)) }
    ensures another { (holder : ℕ) → result ≡ Err (Refusal.InUse holder) → holder ≢ actor }
    ensures facts { rmp.new.facts ≡ rmp.old.facts }
    ensures locked { IsOk result → let lock = page_lock (facts_at rmp.old at.now.slot).size at.now.slot in holder_at rmp.new ≡ with_lock lock actor (holder_at rmp.old) }
    ensures refused { IsErr result → rmp.new ≡ rmp.old }
{
    let entry = rmp.effective(at.slot);
    let holder = rmp.holder(at.slot);
    match validate_refusal(&entry, holder, at, size) {
        Some(refusal) => Err(refusal),
        None => match rmp.lock(at.slot, actor) {
            Ok(()) => Ok(()),
            Err(InUse { holder }) => Err(Refusal::InUse { holder }),
        },
    }
}

/// Sets Validated of the page of a frame as asked, where it isn't so already; the carry flag says that it was.
/// Releases the actor's locks. Takes no memory.
pub fn validate_commit(rmp: &mut RmpRegion, slot: usize, validate: bool, actor: u32) -> bool
    requires slot_below { slot < 512 }
    requires held { holder_at rmp.old slot ≡ Some actor }
    ensures carry { result ≡ carry validate (facts_at rmp.old slot) }
    ensures facts { let own = facts_at rmp.old slot in facts_at rmp.new ≡ over_lock (page_lock own.size slot) (validated_facts validate own) (facts_at rmp.old) }
    ensures locks { holder_at rmp.new ≡ without_locks actor (holder_at rmp.old) }
{
    let carry = set_validated(rmp, slot, validate);
    rmp.unlock(actor);
    carry
}

// Sets Validated of a page, and says whether it was as asked already.
fn set_validated(rmp: &mut RmpRegion, slot: usize, validate: bool) -> bool
    requires { slot < 512 }
    ensures carry { result ≡ carry validate (facts_at rmp.old slot) }
    ensures facts { let own = facts_at rmp.old slot in facts_at rmp.new ≡ over_lock (page_lock own.size slot) (validated_facts validate own) (facts_at rmp.old) }
    ensures locks { rmp.new.holders ≡ rmp.old.holders }
{
    rmp.whole();
    let own = rmp.effective(slot);
    if own.validated == validate {
        return true;
    }
    let entry = RmpEntry {
        validated: validate,
        ..rmp.page_entry(slot)
    };
    rmp.write_page(slot, entry);
    false
}
