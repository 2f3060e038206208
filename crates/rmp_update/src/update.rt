ghost use Rattle.std.specs.Prelude.{◌≡◌, ◌≢◌, ℕ, ◌%◌, ◌&&◌, not, ◌<◌, Some, false, IsOk, IsErr};
ghost use Rattle.snp_model.specs.declared.entry.PageSize.TheVariants.{Small, Large};
ghost use Rattle.snp_model.specs.Entries.{facts_at, holder_at, refusal_answer, with_lock};
ghost use Rattle.snp_model.specs.Facts.{some_frame};
ghost use Rattle.snp_model.specs.Locks.{range_lock};
ghost use Rattle.snp_model.specs.RmpUpdate.{is_bad_update};
ghost use Rattle.snp_model.specs.Verdicts.{is_large};
ghost use Rattle.rmp_update.specs.Regions.{HoldsRange, IsAccepted, IsTested, first_slot, large_refusal, region_answer, region_refusal, small_refusal};

use rmp_table::RmpRegion;
use snp_model::{InUse, PageSize, Refusal, Update};

/// The region that RMPUPDATE names, in a memory of so many frames. Status 1 where its operands are refused before
/// any entry is looked at.
pub fn update_region(update: &Update, frames: u32) -> Result<u32, u8>
    ensures region { result ≡ region_answer (is_bad_update frames update.now) update.now.frame }
    ensures accepted { IsOk result → IsAccepted update.now }
{
    if is_bad_update(update, frames) {
        Err(1)
    } else {
        Ok((update.frame / 512) as u32)
    }
}

/// Locks the range of RMPUPDATE in its region for an actor, with the tests: the page of a frame, or every page of
/// the region for 2 MB. A refusal is that of the first row that applies, and changes nothing. Takes no memory.
pub fn update_lock(rmp: &mut RmpRegion, update: &Update, actor: u32) -> Result<(), Refusal>
    requires accepted { IsAccepted update.now }
    requires none_held { (slot : ℕ) → slot < 512 → holder_at rmp.old slot ≢ Some actor }
    ensures answer { result ≡ refusal_answer (region_refusal update.now rmp.old) }
    ensures another { (holder : ℕ) → result ≡ Err (Refusal.InUse holder) → holder ≢ actor }
    ensures facts { rmp.new.facts ≡ rmp.old.facts }
    ensures locked { IsOk result → holder_at rmp.new ≡ with_lock (range_lock update.now.size (first_slot update.now)) actor (holder_at rmp.old) }
    ensures held { IsOk result → HoldsRange rmp.new update.now actor }
    ensures tested { IsOk result → IsTested rmp.new update.now }
    ensures refused { IsErr result → rmp.new ≡ rmp.old }
{
    match update.size {
        PageSize::Small => lock_frame(rmp, (update.frame % 512) as usize, actor),
        PageSize::Large => lock_region(rmp, actor),
    }
}

// Locks the page of a frame, with the tests of a range of one frame.
fn lock_frame(rmp: &mut RmpRegion, slot: usize, actor: u32) -> Result<(), Refusal>
    requires slot_below { slot < 512 }
    requires not_held { holder_at rmp.old slot ≢ Some actor }
    ensures answer { result ≡ refusal_answer (small_refusal rmp.old slot) }
    ensures another { (holder : ℕ) → result ≡ Err (Refusal.InUse holder) → holder ≢ actor }
    ensures facts { rmp.new.facts ≡ rmp.old.facts }
    ensures locked { IsOk result → holder_at rmp.new ≡ with_lock (range_lock Small slot) actor (holder_at rmp.old) }
    ensures refused { IsErr result → rmp.new ≡ rmp.old }
{
    let entry = rmp.effective(slot);
    match rmp.holder(slot) {
        Some(holder) => Err(Refusal::InUse { holder }),
        None => {
            if is_large(entry.size) {
                Err(Refusal::Status(4))
            } else if entry.immutable {
                Err(Refusal::Status(2))
            } else {
                match rmp.lock(slot, actor) {
                    Ok(()) => Ok(()),
                    Err(InUse { holder }) => Err(Refusal::InUse { holder }),
                }
            }
        }
    }
}

// Locks every page of a region, with the tests of a range of 2 MB.
fn lock_region(rmp: &mut RmpRegion, actor: u32) -> Result<(), Refusal>
    requires { (slot : ℕ) → slot < 512 → holder_at rmp.old slot ≢ Some actor }
    ensures answer { result ≡ refusal_answer (large_refusal rmp.old) }
    ensures another { (holder : ℕ) → result ≡ Err (Refusal.InUse holder) → holder ≢ actor }
    ensures facts { rmp.new.facts ≡ rmp.old.facts }
    ensures locked { IsOk result → holder_at rmp.new ≡ with_lock (range_lock Large 0) actor (holder_at rmp.old) }
    ensures refused { IsErr result → rmp.new ≡ rmp.old }
{
    match rmp.lowest_holder() {
        Some(holder) => Err(Refusal::InUse { holder }),
        None => {
            if overlaps(rmp) {
                Err(Refusal::Status(4))
            } else if any_immutable(rmp) {
                Err(Refusal::Status(2))
            } else {
                match rmp.lock_all(actor) {
                    Ok(()) => Ok(()),
                    Err(InUse { holder }) => Err(Refusal::InUse { holder }),
                }
            }
        }
    }
}

// Whether the region is no page of 2 MB, and a frame of it is assigned.
fn overlaps(rmp: &RmpRegion) -> bool
    ensures { result ≡ (not (is_large (facts_at rmp.now 0).size) && some_frame (λ slot. (facts_at rmp.now slot).assigned) 0 512) }
{
    !is_large(rmp.effective(0).size) && any_assigned(rmp)
}

// Whether a frame of the region is assigned.
fn any_assigned(rmp: &RmpRegion) -> bool
    ensures { result ≡ some_frame (λ slot. (facts_at rmp.now slot).assigned) 0 512 }
{
    'slots: for slot in 0..512 {
        if rmp.effective(slot).assigned {
            return true;
        }
    }
    false
}

// Whether a frame of the region is immutable.
fn any_immutable(rmp: &RmpRegion) -> bool
    ensures { result ≡ some_frame (λ slot. (facts_at rmp.now slot).immutable) 0 512 }
{
    'slots: for slot in 0..512 {
        if rmp.effective(slot).immutable {
            return true;
        }
    }
    false
}

// Whether a page is of 2 MB.
pub(crate) fn is_large(size: PageSize) -> bool
    ensures { result ≡ is_large size }
{
    match size {
        PageSize::Small => false,
        PageSize::Large => true,
    }
}

// What is tested before any entry is looked at.
#[tactic(auto, unfolding(snp_model::specs::RmpUpdate::is_bad_update))]
fn is_bad_update(update: &Update, frames: u32) -> bool
    ensures bad { result ≡ is_bad_update frames update.now }
    ensures inside { result ≡ false → update.now.frame < frames }
{
    !(update.frame < frames as u64)
        || is_large(update.size) && update.frame % 512 != 0
        || is_large(update.size) && update.assigned && (update.gpn % 512 != 0 || update.asid == 0)
        || !update.assigned && (update.asid != 0 || update.gpn != 0 || update.immutable)
        || update.assigned && update.asid == 0 && update.gpn != 0
}
