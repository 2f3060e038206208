ghost use Rattle.std.specs.Prelude.{◌≡◌, IfOk};
ghost use Rattle.machine_core.specs.Bays.{free_bay};

use phys_memory::Region;
use rmp_table::RmpRegion;
use std::alloc::{AllocError, Global};

/// One region of memory, 2 MB: the words of its 512 pages and their RMP entries.
#[derive(Drop)]
pub struct Bay {
    pub memory: Region,
    pub rmp: RmpRegion,
}

impl Bay {
    /// A region of zero words whose frames are all free.
    pub(crate) fn free(alloc: Global) -> Result<Bay, AllocError>
        ensures { IfOk result (λ bay. bay ≡ free_bay) }
    {
        Ok(Bay {
            memory: Region::zeroed(alloc)?,
            rmp: RmpRegion::free(alloc)?,
        })
    }
}
