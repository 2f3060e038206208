use std::alloc::AllocError;
use thiserror::Error;

/// Why an event isn't applied.
#[derive(Debug, Drop, PartialEq, Eq, Error)]
pub enum ApplyFault {
    /// A word was read or written on a page that the guest doesn't hold, or another word was read than is known there. It
    /// has the known word, where there is one, and the word that the event read, 0 where it only wrote.
    #[error("not legal: the memory has {expected:?}, and the event {found}")]
    NotLegal { expected: Option<u64>, found: u64 },
    /// Memory ran out.
    #[error("out of memory")]
    Memory(AllocError),
}
