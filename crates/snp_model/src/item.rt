ghost use Rattle.std.specs.Prelude.{◌≡◌};
ghost use Rattle.snp_model.specs.Operations.{reads, writes};

use crate::{Command, PageSize};

/// What an access does with one 64-bit word.
#[derive(Clone, Copy, Debug, PartialEq, Eq)]
pub enum Op {
    /// Reads the word.
    Load,
    /// Writes the argument.
    Store(u64),
    /// Writes the argument and gives the old word (XCHG).
    Swap(u64),
    /// Writes `next` where the word is `expected`, and gives the old word (CMPXCHG).
    Compare { expected: u64, next: u64 },
    /// Writes the exclusive or of the word and the argument, and gives the old word.
    Xor(u64),
}

impl Op {
    /// Whether it reads the word.
    pub fn reads(&self) -> bool
        ensures { result ≡ reads self.now }
    {
        match self {
            Op::Load => true,
            Op::Store(_) => false,
            Op::Swap(_) => true,
            Op::Compare { .. } => true,
            Op::Xor(_) => true,
        }
    }

    /// Whether it writes the word. A compare does, whatever it finds.
    pub fn writes(&self) -> bool
        ensures { result ≡ writes self.now }
    {
        match self {
            Op::Load => false,
            Op::Store(_) => true,
            Op::Swap(_) => true,
            Op::Compare { .. } => true,
            Op::Xor(_) => true,
        }
    }
}

/// What a skip asks of its actor's last outcome.
#[derive(Clone, Copy, Debug, PartialEq, Eq)]
pub enum SkipTest {
    /// It was good.
    Good,
    /// It was bad.
    Bad,
    /// It gave this value.
    Value(u64),
}

/// The operands of RMPUPDATE (APM volume 3).
#[derive(Clone, Copy, Debug, PartialEq, Eq)]
pub struct Update {
    /// The system physical frame, any number.
    pub frame: u64,
    /// The size of the page.
    pub size: PageSize,
    /// Whether the page becomes assigned.
    pub assigned: bool,
    /// The owner's ASID, below 1024, 0 for the firmware.
    pub asid: u16,
    /// The guest page number, below 2^36.
    pub gpn: u64,
    /// Whether the page becomes immutable.
    pub immutable: bool,
}

/// One thing that an actor does.
#[derive(Clone, Copy, Debug, PartialEq, Eq)]
pub enum Item {
    /// A data access. The address is a multiple of 8: virtual for a guest processor, system physical
    /// for a hypervisor processor.
    Access {
        address: u64,
        op: Op,
    },
    /// PVALIDATE of the page at a virtual address.
    Pvalidate {
        address: u64,
        size: PageSize,
        validate: bool,
    },
    /// RMPADJUST of the page at a virtual address: permissions `mask` and the VMSA bit for VMPL `target`.
    Rmpadjust {
        address: u64,
        size: PageSize,
        target: u8,
        mask: u8,
        vmsa: bool,
    },
    /// RMPUPDATE.
    Rmpupdate(Update),
    /// PSMASH of the 2 MB page at a frame.
    Psmash {
        frame: u64,
    },
    /// A firmware command.
    Firmware(Command),
    /// Passes over the next `count` items, 1 to 8192, where the test holds.
    Skip {
        count: u32,
        test: SkipTest,
    },
}

/// An item of a script, with how often it is tried again after an answer that something is in use.
#[derive(Clone, Copy, Debug, PartialEq, Eq)]
pub struct Line {
    /// What is done.
    pub item: Item,
    /// Further attempts, 0 to 255.
    pub retries: u8,
}
