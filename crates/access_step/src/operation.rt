ghost use Rattle.std.specs.Prelude.{◌≡◌, ◌<◌};
ghost use Rattle.snp_model.specs.RegionWords.{OthersStay, word_at};
ghost use Rattle.snp_model.specs.Accesses.{words_after};
ghost use Rattle.snp_model.specs.Operations.{outcome_of};

use phys_memory::Region;
use snp_model::{Op, Outcome};

// Does to a word what an operation does, with no check.
#[tactic(auto, using(snp_model::proofs::RegionLaws::word_set_same))]
pub fn operate(memory: &mut Region, slot: usize, index: usize, op: &Op) -> Outcome
    requires slot_below { slot < 512 }
    requires index_below { index < 512 }
    ensures outcome { result ≡ outcome_of op.now (word_at memory.old slot index) }
    ensures memory { memory.new ≡ words_after op.now memory.old slot index }
    ensures others { OthersStay memory.old memory.new slot index }
{
    match op {
        Op::Load => Outcome::Loaded(memory.load(slot, index)),
        Op::Store(value) => {
            memory.store(slot, index, *value);
            Outcome::Stored
        }
        Op::Swap(value) => Outcome::Swapped(memory.swap(slot, index, *value)),
        Op::Compare { expected, next } => {
            let found = memory.compare_swap(slot, index, *expected, *next);
            Outcome::Compared {
                found,
                written: found == *expected,
            }
        }
        Op::Xor(value) => {
            let old = memory.load(slot, index);
            memory.store(slot, index, old ^ *value);
            Outcome::Swapped(old)
        }
    }
}
