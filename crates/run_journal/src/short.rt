ghost use Rattle.std.specs.Prelude.{◌≡◌};
ghost use Rattle.run_journal.specs.Shorts.{whole_deed, whole_event};

use snp_model::{Deed, Event, Outcome, PageSize};

/// An event without its actor and its outcome, in fewer bytes.
#[derive(Clone, Copy, Debug)]
pub struct Short {
    /// The item that the event is of, from 0.
    pub item: u32,
    /// The attempt at it, from 0.
    pub attempt: u32,
    /// What the event does.
    pub deed: ShortDeed,
}

impl Short {
    /// The short form of an event.
    #[inline(always)]
    pub fn from_event(event: &Event) -> Short
        ensures item { result.item ≡ event.now.item }
        ensures attempt { result.attempt ≡ event.now.attempt }
        ensures deed { whole_deed result.deed ≡ event.now.deed }
    {
        Short {
            item: event.item,
            attempt: event.attempt,
            deed: shortened(&event.deed),
        }
    }

    /// The event of a short form and an outcome.
    #[inline(always)]
    pub fn whole(&self, outcome: Option<Outcome>) -> Event
        ensures { result ≡ whole_event self.now outcome }
    {
        Event {
            item: self.item,
            attempt: self.attempt,
            deed: whole_deed(&self.deed),
            outcome,
        }
    }
}

/// The actor of an event, and the place after its outcome among the outcomes, or 0 for none.
#[derive(Clone, Copy, Debug)]
pub struct Mark {
    pub actor: u32,
    pub end: u32,
}

/// A deed in 24 bytes, where `Deed` has 40: the fields stand in an order that leaves little padding, and a read of a guest
/// table that was refused is a deed of its own, so that none has a word that may be missing.
#[derive(Clone, Copy, Debug)]
pub enum ShortDeed {
    Begin,
    Nested {
        index: u16,
        frame: u32,
        value: u64,
    },
    Table {
        index: u16,
        frame: u32,
        gpn: u64,
        value: u64,
    },
    RefusedTable {
        index: u16,
        frame: u32,
        gpn: u64,
    },
    Access {
        private: bool,
        index: u16,
        frame: u32,
        gpn: u64,
    },
    Host {
        index: u16,
        frame: u32,
    },
    Lock {
        frame: u64,
    },
    LockContext {
        guest: u8,
    },
    Compute,
    Commit {
        size: PageSize,
        frame: u32,
        gpn: u64,
    },
    CommitContext {
        guest: u8,
    },
    Control,
}

// The short form of a deed.
#[inline(always)]
fn shortened(deed: &Deed) -> ShortDeed
    ensures { whole_deed result ≡ deed.now }
{
    match *deed {
        Deed::Begin => ShortDeed::Begin,
        Deed::Nested {
            frame,
            index,
            value,
        } => ShortDeed::Nested {
            index,
            frame,
            value,
        },
        Deed::Table {
            gpn,
            index,
            frame,
            value,
        } => shortened_table(gpn, index, frame, value),
        Deed::Access {
            gpn,
            index,
            frame,
            private,
        } => ShortDeed::Access {
            private,
            index,
            frame,
            gpn,
        },
        Deed::Host { frame, index } => ShortDeed::Host { index, frame },
        Deed::Lock { frame } => ShortDeed::Lock { frame },
        Deed::LockContext { guest } => ShortDeed::LockContext { guest },
        Deed::Compute => ShortDeed::Compute,
        Deed::Commit { frame, gpn, size } => ShortDeed::Commit { size, frame, gpn },
        Deed::CommitContext { guest } => ShortDeed::CommitContext { guest },
        Deed::Control => ShortDeed::Control,
    }
}

// That of a read of a guest table.
#[inline(always)]
fn shortened_table(gpn: u64, index: u16, frame: u32, value: Option<u64>) -> ShortDeed
    ensures { whole_deed result ≡ Deed.Table gpn index frame value }
{
    match value {
        Some(value) => ShortDeed::Table {
            index,
            frame,
            gpn,
            value,
        },
        None => ShortDeed::RefusedTable { index, frame, gpn },
    }
}

// The deed of a short form.
#[inline(always)]
fn whole_deed(deed: &ShortDeed) -> Deed
    ensures { result ≡ whole_deed deed.now }
{
    match *deed {
        ShortDeed::Begin => Deed::Begin,
        ShortDeed::Nested {
            index,
            frame,
            value,
        } => Deed::Nested {
            frame,
            index,
            value,
        },
        ShortDeed::Table {
            index,
            frame,
            gpn,
            value,
        } => whole_table(gpn, index, frame, Some(value)),
        ShortDeed::RefusedTable { index, frame, gpn } => whole_table(gpn, index, frame, None),
        ShortDeed::Access {
            private,
            index,
            frame,
            gpn,
        } => Deed::Access {
            gpn,
            index,
            frame,
            private,
        },
        ShortDeed::Host { index, frame } => Deed::Host { frame, index },
        ShortDeed::Lock { frame } => Deed::Lock { frame },
        ShortDeed::LockContext { guest } => Deed::LockContext { guest },
        ShortDeed::Compute => Deed::Compute,
        ShortDeed::Commit { size, frame, gpn } => Deed::Commit { frame, gpn, size },
        ShortDeed::CommitContext { guest } => Deed::CommitContext { guest },
        ShortDeed::Control => Deed::Control,
    }
}

// A read of a guest table.
#[inline(always)]
fn whole_table(gpn: u64, index: u16, frame: u32, value: Option<u64>) -> Deed
    ensures { result ≡ Deed.Table gpn index frame value }
{
    Deed::Table {
        gpn,
        index,
        frame,
        value,
    }
}
