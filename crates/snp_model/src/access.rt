use crate::{Outcome, PageSize};

/// Where a guest's access goes, after its walks.
#[derive(Clone, Copy, Debug, PartialEq, Eq)]
pub struct Place {
    /// The guest's ASID.
    pub asid: u16,
    /// The guest page number, below 2^36.
    pub gpn: u64,
    /// The frame's number within its region, below 512.
    pub slot: usize,
    /// The word of the frame, below 512.
    pub index: usize,
    /// The size of the nested walk's leaf.
    pub leaf: PageSize,
    /// The actor's VMPL, below 4.
    pub vmpl: u8,
    /// Whether the access is private.
    pub private: bool,
    /// Whether a guest table is read.
    pub table: bool,
}

/// What the RMP says to an access.
#[derive(Clone, Copy, Debug, PartialEq, Eq)]
pub enum Verdict {
    /// It is made.
    Pass,
    /// It answers `Opaque`.
    Hidden,
    /// It faults, with this outcome.
    Fault(Outcome),
}
