ghost use Rattle.std.specs.Prelude.{◌≡◌, ◌≢◌, ℕ, None, Some, false, ◌<◌, IsOk, IsErr};
ghost use Rattle.snp_model.specs.Entries.{facts_at, holder_at, refusal_answer, with_lock, without_locks};
ghost use Rattle.snp_model.specs.Locks.{over_lock, page_lock};
ghost use Rattle.snp_model.specs.RmpUpdate.{is_bad_smash, smash_page_refusal, smashed_facts};
ghost use Rattle.rmp_update.specs.Regions.{region_answer};

use crate::update::is_large;
use rmp_table::RmpRegion;
use snp_model::{InUse, Refusal, RmpEntry};

/// The region that PSMASH names, in a memory of so many frames. Status 1 where its frame is outside memory or the
/// first of no region.
pub fn smash_region(frame: u64, frames: u32) -> Result<u32, u8>
    ensures region { result ≡ region_answer (is_bad_smash frames frame) frame }
{
    if is_bad_smash(frame, frames) {
        Err(1)
    } else {
        Ok((frame / 512) as u32)
    }
}

/// Locks the page at the first frame of a region for an actor, with the tests of PSMASH. A refusal is that of the
/// first row that applies, and changes nothing. Takes no memory.
pub fn smash_lock(rmp: &mut RmpRegion, actor: u32) -> Result<(), Refusal>
    requires { holder_at rmp.old 0 ≢ Some actor }
    ensures answer { result ≡ refusal_answer (smash_page_refusal (facts_at rmp.old 0) (holder_at rmp.old 0)) }
    ensures another { (holder : ℕ) → result ≡ Err (Refusal.InUse holder) → holder ≢ actor }
    ensures facts { rmp.new.facts ≡ rmp.old.facts }
    ensures locked { IsOk result → holder_at rmp.new ≡ with_lock (page_lock (facts_at rmp.old 0).size 0) actor (holder_at rmp.old) }
    ensures held { IsOk result → holder_at rmp.new 0 ≡ Some actor }
    ensures tested { IsOk result → smash_page_refusal (facts_at rmp.new 0) None ≡ None }
    ensures refused { IsErr result → rmp.new ≡ rmp.old }
{
    let entry = rmp.effective(0);
    let holder = rmp.holder(0);
    match page_refusal(&entry, holder) {
        Some(refusal) => Err(refusal),
        None => match rmp.lock(0, actor) {
            Ok(()) => Ok(()),
            Err(InUse { holder }) => Err(Refusal::InUse { holder }),
        },
    }
}

/// Makes 512 pages of 4 KB of the region's page of 2 MB, and releases the actor's locks. Takes no memory.
pub fn smash_commit(rmp: &mut RmpRegion, actor: u32)
    requires held { holder_at rmp.old 0 ≡ Some actor }
    requires tested { smash_page_refusal (facts_at rmp.old 0) None ≡ None }
    ensures facts { facts_at rmp.new ≡ over_lock (page_lock (facts_at rmp.old 0).size 0) smashed_facts (facts_at rmp.old) }
    ensures locks { holder_at rmp.new ≡ without_locks actor (holder_at rmp.old) }
{
    rmp.whole();
    rmp.smash();
    rmp.unlock(actor);
}

// What is tested of a page's entry and lock.
#[tactic(auto, unfolding(snp_model::specs::RmpUpdate::smash_page_refusal))]
fn page_refusal(entry: &RmpEntry, holder: Option<u32>) -> Option<Refusal>
    ensures refusal { result ≡ smash_page_refusal entry.now holder }
    ensures unlocked { result ≡ None → holder ≡ None }
    ensures in_use { (other : ℕ) → result ≡ Some (Refusal.InUse other) → holder ≡ Some other }
{
    match holder {
        Some(holder) => Some(Refusal::InUse { holder }),
        None => {
            if !is_large(entry.size) {
                Some(Refusal::Status(1))
            } else if entry.immutable {
                Some(Refusal::Status(2))
            } else {
                None
            }
        }
    }
}

// What is tested before any entry is looked at.
#[tactic(auto, unfolding(snp_model::specs::RmpUpdate::is_bad_smash))]
fn is_bad_smash(frame: u64, frames: u32) -> bool
    ensures bad { result ≡ is_bad_smash frames frame }
    ensures inside { result ≡ false → frame < frames }
{
    !(frame < frames as u64) || frame % 512 != 0
}
