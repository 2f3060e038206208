use outside_port::SinkFault;
use std::alloc::AllocError;
use thiserror::Error;

/// Why a line isn't one of a report, or its event none of the scenario's.
#[derive(Clone, Copy, Debug, PartialEq, Eq)]
pub enum AuditReason {
    /// It is neither an event line with the next number, nor a line of the ending in its place, nor the first line in its own.
    Form,
    /// Its actor isn't declared.
    Actor,
    /// Its actor has no such item.
    Item,
    /// Its event can't be of its item.
    Kind,
}

/// Why an audit doesn't say yes.
#[derive(Debug, Drop, PartialEq, Eq, Error)]
pub enum AuditFault {
    /// A line doesn't fit.
    #[error("line {line} is refused: {reason:?}")]
    Refused {
        line: u32,
        reason: AuditReason,
    },
    /// An event doesn't find what it needs. It has the word that is known there, and the word that the event found, 0 where it
    /// only wrote.
    #[error("line {line} isn't legal: the memory has {expected:?}, and the event {found}")]
    NotLegal {
        line: u32,
        expected: Option<u64>,
        found: u64,
    },
    /// The sink failed.
    #[error("the sink failed")]
    Sink(SinkFault),
    /// Memory ran out.
    #[error("out of memory")]
    Memory(AllocError),
}

/// Why a line doesn't fit.
#[derive(Clone, Copy, Debug, PartialEq, Eq)]
pub enum LineFault {
    Refused(AuditReason),
    NotLegal { expected: Option<u64>, found: u64 },
    Memory,
}
