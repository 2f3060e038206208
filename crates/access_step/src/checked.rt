ghost use Rattle.std.specs.Prelude.{◌≡◌, ◌≢◌, ℕ, ◌<◌};
ghost use Rattle.snp_model.specs.declared.access.Verdict.TheVariants.{Pass};
ghost use Rattle.snp_model.specs.declared.item.Op.TheVariants.{Load, Compare};
ghost use Rattle.snp_model.specs.Accesses.{IsPlace, guest_verdict, answer_by, memory_by};
ghost use Rattle.snp_model.specs.Entries.{facts_at};
ghost use Rattle.snp_model.specs.RegionWords.{OthersStay, word_at};
ghost use Rattle.snp_model.specs.Verdicts.{host_verdict};

use crate::operation::operate;
use phys_memory::Region;
use rmp_check::{host_verdict, private_verdict, shared_verdict};
use rmp_table::RmpRegion;
use snp_model::{Op, Outcome, Place, RmpEntry, Verdict};

/// A guest's access to a word of a region, private or shared, with its RMP check. Takes no memory.
pub fn access(memory: &mut Region, rmp: &RmpRegion, at: &Place, op: &Op) -> Outcome
    requires { IsPlace at.now }
    ensures outcome { let verdict = guest_verdict (facts_at rmp.now at.now.slot) at.now op.now in
        result ≡ answer_by verdict op.now (word_at memory.old at.now.slot at.now.index) }
    ensures memory { let verdict = guest_verdict (facts_at rmp.now at.now.slot) at.now op.now in
        memory.new ≡ memory_by verdict op.now memory.old at.now.slot at.now.index }

    // A fault, or the answer that the word is opaque, changes nothing.
    ensures refused { guest_verdict (facts_at rmp.now at.now.slot) at.now op.now ≢ Pass
        → memory.new ≡ memory.old }
    // A load changes nothing, and a compare that finds another word writes nothing.
    ensures load { op.now ≡ Load → memory.new ≡ memory.old }
    ensures missed { (expected next : ℕ) → op.now ≡ Compare expected next
        → word_at memory.old at.now.slot at.now.index ≢ expected → memory.new ≡ memory.old }
    // One word changes at most.
    ensures others { OthersStay memory.old memory.new at.now.slot at.now.index }
{
    let entry = rmp.effective(at.slot);
    let verdict = guest_verdict(&entry, at, op);
    settle(memory, at.slot, at.index, op, verdict)
}

/// A hypervisor's access to a word of a region, with its RMP check. Takes no memory.
pub fn host_access(
    memory: &mut Region,
    rmp: &RmpRegion,
    slot: usize,
    index: usize,
    op: &Op,
) -> Outcome
    requires slot_below { slot < 512 }
    requires index_below { index < 512 }
    ensures outcome { let verdict = host_verdict (facts_at rmp.now slot) op.now in
        result ≡ answer_by verdict op.now (word_at memory.old slot index) }
    ensures memory { let verdict = host_verdict (facts_at rmp.now slot) op.now in
        memory.new ≡ memory_by verdict op.now memory.old slot index }

    // A fault, or the answer that the word is opaque, changes nothing.
    ensures refused { host_verdict (facts_at rmp.now slot) op.now ≢ Pass → memory.new ≡ memory.old }
    // A load changes nothing, and a compare that finds another word writes nothing.
    ensures load { op.now ≡ Load → memory.new ≡ memory.old }
    ensures missed { (expected next : ℕ) → op.now ≡ Compare expected next
        → word_at memory.old slot index ≢ expected → memory.new ≡ memory.old }
    // One word changes at most.
    ensures others { OthersStay memory.old memory.new slot index }
{
    let entry = rmp.effective(slot);
    let verdict = host_verdict(&entry, op);
    settle(memory, slot, index, op, verdict)
}

// The verdict on a guest's access.
#[inline(always)]
fn guest_verdict(entry: &RmpEntry, at: &Place, op: &Op) -> Verdict
    requires { IsPlace at.now }
    ensures { result ≡ guest_verdict entry.now at.now op.now }
{
    if at.private {
        return private_verdict(entry, at, op);
    }
    shared_verdict(entry, at, op)
}

// Makes an access where the verdict lets it pass, and else changes nothing.
#[inline(always)]
fn settle(memory: &mut Region, slot: usize, index: usize, op: &Op, verdict: Verdict) -> Outcome
    requires slot_below { slot < 512 }
    requires index_below { index < 512 }
    ensures outcome { result ≡ answer_by verdict op.now (word_at memory.old slot index) }
    ensures memory { memory.new ≡ memory_by verdict op.now memory.old slot index }
    ensures refused { verdict ≢ Pass → memory.new ≡ memory.old }
    ensures load { op.now ≡ Load → memory.new ≡ memory.old }
    ensures missed { (expected next : ℕ) → op.now ≡ Compare expected next
        → word_at memory.old slot index ≢ expected → memory.new ≡ memory.old }
    ensures others { OthersStay memory.old memory.new slot index }
{
    match verdict {
        Verdict::Pass => operate(memory, slot, index, op),
        Verdict::Hidden => Outcome::Opaque,
        Verdict::Fault(outcome) => outcome,
    }
}
