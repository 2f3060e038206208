ghost use Rattle.std.specs.Prelude.{◌≡◌, ◌%◌, ◌<◌};
ghost use Rattle.snp_model.specs.declared.item.Op.TheVariants.{Load};
ghost use Rattle.snp_model.specs.Accesses.{IsPlace};
ghost use Rattle.snp_model.specs.Moves.{table_word};
ghost use Rattle.snp_model.specs.State.{word_of};
ghost use Rattle.snp_model.specs.Verdicts.{private_verdict};
ghost use Rattle.machine_core.specs.Bays.{HasFrame, pages_of};
ghost use Rattle.machine_core.specs.Moves.{table_load};

use crate::parts::Parts;
use rmp_check::private_verdict;
use snp_model::{Op, Outcome, Place, Verdict};

/// The word of a nested table that the walker sees: 0 where the frame is assigned.
pub fn table_word<P: Parts>(parts: &P, frame: u32, index: u16) -> u64
    requires has { HasFrame (P.stock parts.now) frame }
    requires index { index < 512 }
    ensures { result ≡ table_word (pages_of (P.stock parts.now).bays frame) index }
{
    let bay = parts.bay(frame / 512);
    let slot = (frame % 512) as usize;
    let entry = bay.rmp.effective(slot);
    if entry.assigned {
        0
    } else {
        bay.memory.load(slot, index as usize)
    }
}

/// A word of a guest table, read with its RMP check, which is that of a private load.
pub fn guest_table_word<P: Parts>(parts: &P, frame: u32, at: &Place) -> Result<u64, Outcome>
    requires has { HasFrame (P.stock parts.now) frame }
    requires place { IsPlace at.now }
    requires slot { at.now.slot ≡ frame % 512 }
    ensures { let page = pages_of (P.stock parts.now).bays frame in result ≡ table_load (private_verdict page.facts at.now Load) (word_of page at.now.index) }
{
    let bay = parts.bay(frame / 512);
    let entry = bay.rmp.effective(at.slot);
    match private_verdict(&entry, at, &Op::Load) {
        Verdict::Pass => Ok(bay.memory.load(at.slot, at.index)),
        Verdict::Hidden => Err(Outcome::Opaque),
        Verdict::Fault(outcome) => Err(outcome),
    }
}
