ghost use Rattle.std.specs.Prelude.{◌≡◌, IsSome};
ghost use Rattle.machine_core.specs.Bays.{holders_of, pages_of};
ghost use Rattle.machine_core.specs.CommandPages.{StillHas, released_in};

use crate::parts::Parts;

/// Releases the locks that an actor has in a region.
pub fn release<P: Parts>(parts: &mut P, region: u32, number: u32)
    requires has { IsSome ((P.stock parts.old).bays region) }
    ensures pages { pages_of (P.stock parts.new).bays ≡ pages_of (P.stock parts.old).bays }
    ensures locks { holders_of (P.stock parts.new).bays ≡ released_in region number (holders_of (P.stock parts.old).bays) }
    ensures has { StillHas (P.stock parts.old) (P.stock parts.new) }
    ensures contexts { (P.stock parts.new).contexts ≡ (P.stock parts.old).contexts }
    ensures kept { P.kept parts.old parts.new }
{
    parts.bay_mut(region).rmp.unlock(number);
}
