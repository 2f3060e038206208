ghost use Rattle.std.specs.Prelude.{◌≡◌, ◌≤◌};
ghost use Rattle.snp_model.specs.Facts.{frames_in, free_entry};

/// The size of a page in the RMP or of the leaf of a nested walk (APM volume 2, 15.36.3).
#[derive(Clone, Copy, Debug, Default, PartialEq, Eq)]
pub enum PageSize {
    /// 4 KB, one frame.
    #[default]
    Small,
    /// 2 MB, 512 frames of one region.
    Large,
}

impl PageSize {
    /// How many frames of 4 KB a page of this size has.
    pub fn frames(self) -> u32
        ensures frames { result ≡ frames_in self }
        ensures most { result ≤ 512 }
    {
        match self {
            PageSize::Small => 1,
            PageSize::Large => 512,
        }
    }
}

/// What an assigned page without a guest is used for. Firmware keeps this beside the RMP; the field is
/// this project's own.
#[derive(Clone, Copy, Debug, Default, PartialEq, Eq)]
pub enum Kind {
    /// A page of a guest, of the hypervisor, or in state Reclaim.
    #[default]
    Plain,
    /// A page that was given to the firmware.
    Firmware,
    /// A page that holds a guest's context.
    Context,
    /// A page of metadata entries.
    Metadata,
}

/// One entry of the reverse map table (APM volume 2, 15.36.3): the facts of one 4 KB frame.
#[derive(Clone, Copy, Debug, PartialEq, Eq)]
pub struct RmpEntry {
    /// Whether the frame is owned by a guest or by the firmware, and not by the hypervisor.
    pub assigned: bool,
    /// The size of the page that the frame is in.
    pub size: PageSize,
    /// Whether RMPUPDATE may not change the page.
    pub immutable: bool,
    /// The guest page number, below 2^36.
    pub gpn: u64,
    /// The owner's address space identifier, 0 for none and for the firmware.
    pub asid: u16,
    /// Whether the page may be used as a virtual machine save area.
    pub vmsa: bool,
    /// Whether the guest has accepted the page by PVALIDATE or at launch.
    pub validated: bool,
    /// Permissions of VMPL0 to VMPL3: bit 0 reads, bit 1 writes, bits 2 and 3 execute.
    pub perms: [u8; 4],
    /// What firmware uses the page for.
    pub kind: Kind,
}

impl RmpEntry {
    /// The entry of an unassigned frame.
    #[tactic(auto, unfolding(crate::specs::Facts::free_entry))]
    pub fn free() -> RmpEntry
        ensures { result ≡ free_entry }
    {
        RmpEntry {
            assigned: false,
            size: PageSize::Small,
            immutable: false,
            gpn: 0,
            asid: 0,
            vmsa: false,
            validated: false,
            perms: [0; 4],
            kind: Kind::Plain,
        }
    }
}
