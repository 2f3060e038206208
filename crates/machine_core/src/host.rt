ghost use Rattle.std.specs.Prelude.{◌≡◌, ◌/◌, ◌<◌, List, None};
ghost use Rattle.snp_model.specs.State.{ActorPart};
ghost use Rattle.snp_model.specs.Step.{host_access};
ghost use Rattle.snp_model.specs.declared.scenario.GuestSpec.{GuestSpec};
ghost use Rattle.machine_core.specs.Bays.{HasFrame, locks_of, view_on};
ghost use Rattle.machine_core.specs.Moves.{move_by};

use crate::changes;
use crate::cpu::index_of;
use crate::parts::Parts;
use crate::shown::Shown;
use snp_model::{Deed, Op};

/// An access of a hypervisor's processor, at a system physical address in memory of so many frames.
#[tactic(auto, unfolding(snp_model::specs::Step::host_access))]
pub fn host_access<P: Parts>(parts: &mut P, frames: u32, address: u64, op: &Op, shown: &mut Shown)
    requires within { address / 4096 < frames }
    requires has { HasFrame (P.stock parts.old) (address / 4096) }
    ensures moves { (guests : List GuestSpec) (part : ActorPart) → host_access (view_on (P.stock parts.old) guests).contents part address op.now ≡ move_by shown.new (view_on (P.stock parts.new) guests) part.standing }
    ensures unlocked { shown.new.lock ≡ None }
    ensures locks { locks_of (P.stock parts.new) ≡ locks_of (P.stock parts.old) }
    ensures contexts { (P.stock parts.new).contexts ≡ (P.stock parts.old).contexts }
    ensures kept { P.kept parts.old parts.new }
{
    let frame = (address / 4096) as u32;
    let index = index_of(address);
    let outcome = changes::host_access(parts, frame, index, op);
    *shown = Shown::last(Deed::Host { frame, index }, outcome);
}
