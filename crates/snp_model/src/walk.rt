use crate::{Outcome, PageSize};

/// What a nested walk begins from.
#[derive(Clone, Copy, Debug, PartialEq, Eq)]
pub struct NestedPath {
    /// The frame of the first table, in memory.
    pub root: u32,
    /// How many frames memory has.
    pub frames: u32,
    /// The guest page number that is looked up, below 2^36.
    pub gpn: u64,
    /// Whether the access writes.
    pub write: bool,
    /// Whether the access is private.
    pub private: bool,
    /// Whether the page number is a guest table's, and not the access's own.
    pub table: bool,
}

/// Where a nested walk stands (APM volume 2, 15.25.6).
#[derive(Clone, Copy, Debug, PartialEq, Eq)]
pub enum NestedEnd {
    /// The next word of a nested table that it reads: a frame in memory and an index below 512.
    Read { frame: u32, index: u16 },
    /// The frame, in memory, that the guest page number leads to, and the size of the leaf.
    Leaf { frame: u32, size: PageSize },
    /// A nested page fault with this EXITINFO1.
    Fault(u64),
}

/// What the walks of a guest processor's item look up.
#[derive(Clone, Copy, Debug, PartialEq, Eq)]
pub struct Lookup {
    /// The virtual address.
    pub address: u64,
    /// Whether the walks are those of a write.
    pub write: bool,
    /// Whether the leaf's C bit counts. Where it doesn't, the translation is private whatever the bit is.
    pub c_bit: bool,
}

/// What a guest walk begins from.
#[derive(Clone, Copy, Debug, PartialEq, Eq)]
pub struct GuestPath {
    /// How many levels of tables there are, 4 or 5.
    pub levels: u8,
    /// The guest page number of the first table, below 2^36.
    pub root: u64,
    /// The virtual address that is looked up.
    pub address: u64,
    /// Whether the access writes.
    pub write: bool,
}

/// Where a guest walk stands (APM volume 2, 5.3).
#[derive(Clone, Copy, Debug, PartialEq, Eq)]
pub enum GuestEnd {
    /// The next word of a guest table that it reads: a guest page number below 2^36 and an index below 512.
    Read {
        gpn: u64,
        index: u16,
    },
    /// The guest page number, below 2^36, that the address leads to, whether the access is private, and the size of the leaf.
    Leaf {
        gpn: u64,
        private: bool,
        size: PageSize,
    },
    /// A page fault with this error code.
    Fault(u64),
}

/// What a guest processor's access needs next, once it has begun.
#[derive(Clone, Copy, Debug, PartialEq, Eq)]
pub enum Need {
    /// A word of a nested table: its frame, in memory, and its index below 512.
    Nested {
        frame: u32,
        index: u16,
    },
    /// A word of a guest table: the table's guest page number, the word's index below 512, the frame, in memory, that the
    /// page number leads to, and the size of the nested leaf.
    Table {
        gpn: u64,
        index: u16,
        frame: u32,
        size: PageSize,
    },
    /// The access itself: its guest page number, whether it is private, the frame, in memory, that the page number leads
    /// to, and the size of the nested leaf.
    Data {
        gpn: u64,
        private: bool,
        frame: u32,
        size: PageSize,
    },
    /// Nothing more: its walks have ended in this fault.
    Fault(Outcome),
}
