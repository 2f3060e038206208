ghost use Rattle.std.specs.Prelude.{◌≡◌};
ghost use Rattle.snp_model.specs.Outcomes.{good_where, class_of, is_good, is_bad, is_in_use};

use crate::PageSize;

/// What one event does. Frames of `Lock` are any number, since a lock may be asked of a frame outside
/// memory; all others are in memory. Indexes are below 512, guest page numbers below 2^36.
#[derive(Clone, Copy, Debug, Default, PartialEq, Eq)]
pub enum Deed {
    /// A guest processor's item begins.
    #[default]
    Begin,
    /// One word of a nested table is read.
    Nested {
        frame: u32,
        index: u16,
        value: u64,
    },
    /// One word of a guest table is read, and `value` is None where the RMP refused it.
    Table {
        gpn: u64,
        index: u16,
        frame: u32,
        value: Option<u64>,
    },
    /// A guest's data access, with its RMP check.
    Access {
        gpn: u64,
        index: u16,
        frame: u32,
        private: bool,
    },
    /// A hypervisor's data access, with its RMP check.
    Host {
        frame: u32,
        index: u16,
    },
    /// A page's lock is taken, with its tests.
    Lock {
        frame: u64,
    },
    /// A guest context's lock is taken, with its tests.
    LockContext {
        guest: u8,
    },
    /// Firmware seals or opens a page.
    Compute,
    /// What was locked is changed, and the locks are released.
    Commit {
        frame: u32,
        gpn: u64,
        size: PageSize,
    },
    /// A guest context is changed, and the locks are released.
    CommitContext {
        guest: u8,
    },
    /// A skip looks at its test.
    Control,
}

/// How an attempt ended.
#[derive(Clone, Copy, Debug, PartialEq, Eq)]
pub enum Outcome {
    /// A load gave this word.
    Loaded(u64),
    /// A load of a word that the actor may not see.
    Opaque,
    /// A store was made.
    Stored,
    /// A swap or xor was made; the old word.
    Swapped(u64),
    /// A compare found this word, and wrote or didn't.
    Compared { found: u64, written: bool },
    /// #GP: an address that isn't canonical, or PVALIDATE outside VMPL0.
    Gp,
    /// #PF with this error code (APM volume 2, 8.4.2).
    Pf(u64),
    /// A nested page fault with this EXITINFO1 (APM volume 2, 15.25.6 and 15.36.10).
    Npf(u64),
    /// #VC with this exit code.
    Vc(u64),
    /// The guest isn't running.
    Offline,
    /// An instruction's status.
    Status(u8),
    /// PVALIDATE's status 0 with this carry flag.
    Carry(bool),
    /// Status 3: another actor, numbered from 1, holds a lock.
    StatusInUse { holder: u32 },
    /// A firmware command's status.
    Firmware(u16),
    /// Firmware status 0x100: another actor, numbered from 1, holds a lock.
    FirmwareInUse { holder: u32 },
    /// Firmware status 0x0B: the tag of the ciphertext, and the tag that was kept.
    BadTag { found: [u8; 16], kept: [u8; 16] },
    /// A skip's test didn't hold.
    Next,
    /// A skip passes over this many items.
    Skipped(u32),
}

/// What sort of outcome one is.
#[derive(Clone, Copy, Debug, PartialEq, Eq)]
pub enum OutcomeClass {
    /// The item was done.
    Good,
    /// It wasn't, or it did less than was asked.
    Bad,
    /// It wasn't, since another actor holds a lock: it is bad too, and the item can be tried again.
    InUse,
    /// A skip's: neither good nor bad.
    Skip,
}

impl Outcome {
    /// What sort of outcome it is.
    pub fn class(&self) -> OutcomeClass
        ensures { result ≡ class_of self.now }
    {
        match self {
            Outcome::Loaded(_) => OutcomeClass::Good,
            Outcome::Opaque => OutcomeClass::Good,
            Outcome::Stored => OutcomeClass::Good,
            Outcome::Swapped(_) => OutcomeClass::Good,
            Outcome::Compared { written, .. } => good_where(*written),
            Outcome::Gp => OutcomeClass::Bad,
            Outcome::Pf(_) => OutcomeClass::Bad,
            Outcome::Npf(_) => OutcomeClass::Bad,
            Outcome::Vc(_) => OutcomeClass::Bad,
            Outcome::Offline => OutcomeClass::Bad,
            Outcome::Status(status) => good_where(*status == 0),
            Outcome::Carry(_) => OutcomeClass::Good,
            Outcome::StatusInUse { .. } => OutcomeClass::InUse,
            Outcome::Firmware(status) => good_where(*status == 0),
            Outcome::FirmwareInUse { .. } => OutcomeClass::InUse,
            Outcome::BadTag { .. } => OutcomeClass::Bad,
            Outcome::Next => OutcomeClass::Skip,
            Outcome::Skipped(_) => OutcomeClass::Skip,
        }
    }

    /// Whether it is good.
    pub fn is_good(&self) -> bool
        ensures { result ≡ is_good self.now }
    {
        match self.class() {
            OutcomeClass::Good => true,
            OutcomeClass::Bad => false,
            OutcomeClass::InUse => false,
            OutcomeClass::Skip => false,
        }
    }

    /// Whether it is bad: every one that isn't good, but those of skips.
    pub fn is_bad(&self) -> bool
        ensures { result ≡ is_bad self.now }
    {
        match self.class() {
            OutcomeClass::Good => false,
            OutcomeClass::Bad => true,
            OutcomeClass::InUse => true,
            OutcomeClass::Skip => false,
        }
    }

    /// Whether something was in use.
    pub fn is_in_use(&self) -> bool
        ensures { result ≡ is_in_use self.now }
    {
        match self.class() {
            OutcomeClass::Good => false,
            OutcomeClass::Bad => false,
            OutcomeClass::InUse => true,
            OutcomeClass::Skip => false,
        }
    }
}

// Good where a test holds, and else bad.
fn good_where(test: bool) -> OutcomeClass
    ensures { result ≡ good_where test }
{
    if test {
        OutcomeClass::Good
    } else {
        OutcomeClass::Bad
    }
}

/// One event of an actor. Items and attempts count from 0. An event with an outcome ends its attempt.
#[derive(Clone, Copy, Debug, PartialEq, Eq)]
pub struct Event {
    /// The item's place in its actor's script.
    pub item: u32,
    /// The attempt of that item.
    pub attempt: u32,
    /// What was done.
    pub deed: Deed,
    /// How the attempt ended, if it did.
    pub outcome: Option<Outcome>,
}

/// A lock is held by another actor, numbered from 1.
#[derive(Clone, Copy, Debug, PartialEq, Eq)]
pub struct InUse {
    /// The actor that holds it.
    pub holder: u32,
}

/// Why an instruction didn't get its lock.
#[derive(Clone, Copy, Debug, PartialEq, Eq)]
pub enum Refusal {
    /// This status.
    Status(u8),
    /// Status 3 with the actor that holds a lock.
    InUse { holder: u32 },
    /// A nested page fault with this EXITINFO1.
    Npf(u64),
    /// #VC with this exit code.
    Vc(u64),
}

/// Why a firmware command didn't go on.
#[derive(Clone, Copy, Debug, PartialEq, Eq)]
pub enum FwRefusal {
    /// This status.
    Status(u16),
    /// Status 0x100 with the actor that holds a lock.
    InUse { holder: u32 },
    /// Status 0x0B: the tag of the ciphertext, and the tag that was kept.
    BadTag { found: [u8; 16], kept: [u8; 16] },
}
