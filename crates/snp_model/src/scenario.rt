ghost use Rattle.std.specs.Prelude.{◌≡◌, IfOk};

use crate::{Line, Listed, PageSize};
use std::alloc::{AllocError, Global};

/// How a guest processor translates virtual addresses.
#[derive(Clone, Copy, Debug, PartialEq, Eq)]
pub enum Paging {
    /// The guest page number is bits 47:12 of the address, and accesses are private.
    Flat,
    /// Four levels from the table at this guest page number, below 2^36 (APM volume 2, 5.3).
    Four(u64),
    /// Five levels from the table at this guest page number, below 2^36 (APM volume 2, 5.3).
    Five(u64),
}

/// What an actor is.
#[derive(Clone, Copy, Debug, PartialEq, Eq)]
pub enum Role {
    /// A processor of a guest, numbered from 1, at a VMPL below 4, whose nested table begins at frame
    /// `npt`.
    Cpu {
        guest: u8,
        vmpl: u8,
        npt: u32,
        paging: Paging,
    },
    /// A processor that runs the hypervisor.
    Host,
    /// The SEV firmware.
    Firmware,
}

/// An actor: what it is, and what it does in order.
#[derive(Debug, Drop, PartialEq, Eq)]
pub struct Actor {
    /// What the actor is.
    pub role: Role,
    /// Its items, in their order.
    pub script: Listed<Line>,
}

/// A guest at the opening.
#[derive(Clone, Copy, Debug, PartialEq, Eq)]
pub struct GuestSpec {
    /// Whether it runs already; else it has no context yet.
    pub opened: bool,
    /// Its ASID, 1 to 1023.
    pub asid: u16,
    /// The counter of its sealing nonces.
    pub iv: u64,
    /// Its sealing key.
    pub key: [u8; 32],
}

/// A guest's page at the opening.
#[derive(Clone, Copy, Debug, PartialEq, Eq)]
pub struct PageSpec {
    /// The frame, in memory.
    pub frame: u32,
    /// The guest, numbered from 1.
    pub guest: u8,
    /// The guest page number, below 2^36.
    pub gpn: u64,
    /// The size of the page.
    pub size: PageSize,
    /// Whether it is validated.
    pub valid: bool,
    /// Permissions of VMPL1, VMPL2 and VMPL3, below 16. VMPL0 has all.
    pub perms: [u8; 3],
}

/// One word of memory at the opening.
#[derive(Clone, Copy, Debug, PartialEq, Eq)]
pub struct WordSpec {
    /// The frame, in memory.
    pub frame: u32,
    /// The word of the frame, below 512.
    pub index: u16,
    /// The word.
    pub value: u64,
}

/// A run of a schedule: `count` events of one actor, numbered from 1.
#[derive(Clone, Copy, Debug, PartialEq, Eq)]
pub struct Turn {
    /// Whose turn it is; any number below 2^32.
    pub actor: u32,
    /// How many events, 1 to 262,144.
    pub count: u32,
}

/// The opening of a run: memory, guests, actors and, for `replay`, the schedule.
#[derive(Debug, Drop, PartialEq, Eq)]
pub struct Scenario {
    /// The version of its text and of its report, 1 or 2. Guest tables of five levels stand in version 2 alone.
    pub version: u8,
    /// Regions of 512 frames, 1 to 16.
    pub regions: u32,
    /// The guests, at most 8. Guest 1 is the first.
    pub guests: Listed<GuestSpec>,
    /// The guests' pages. No frame, and no page number of one guest, stands in two of them.
    pub pages: Listed<PageSpec>,
    /// Words of memory, the later ones replacing the earlier.
    pub words: Listed<WordSpec>,
    /// The actors, at most 32. Actor 1 is the first.
    pub actors: Listed<Actor>,
    /// The schedule, whose counts add up to 262,144 at most.
    pub order: Listed<Turn>,
}

impl Actor {
    /// A copy.
    pub fn copy(&self, alloc: Global) -> Result<Actor, AllocError>
        ensures { IfOk result (λ copy. copy ≡ self.now) }
    {
        Ok(Actor {
            role: self.role,
            script: Listed::from_slice(alloc, self.script.as_slice())?,
        })
    }
}

impl Scenario {
    /// A copy.
    pub fn copy(&self, alloc: Global) -> Result<Scenario, AllocError>
        ensures { IfOk result (λ copy. copy ≡ self.now) }
    {
        Ok(Scenario {
            version: self.version,
            regions: self.regions,
            guests: Listed::from_slice(alloc, self.guests.as_slice())?,
            pages: Listed::from_slice(alloc, self.pages.as_slice())?,
            words: Listed::from_slice(alloc, self.words.as_slice())?,
            actors: copy_actors(alloc, self.actors.as_slice())?,
            order: Listed::from_slice(alloc, self.order.as_slice())?,
        })
    }
}

// Copies of actors.
fn copy_actors(alloc: Global, actors: &[Actor]) -> Result<Listed<Actor>, AllocError>
    ensures { IfOk result (λ copies. copies ≡ actors.now) }
{
    let mut copies = Vec::with_capacity(alloc, actors.len())?;
    'actors: for actor in actors {
        copies.push_reserved(actor.copy(alloc)?);
    }
    Ok(Listed::from_vec(copies))
}
