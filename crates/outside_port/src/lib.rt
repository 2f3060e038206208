//! Where the program's bytes come from and go to, and what its threads step.
#![tactic(auto)]

mod adapters;
mod memory;
mod sink;
mod source;
mod steps;

pub use adapters::{ReaderSource, WriterSink};
pub use memory::{MemorySink, MemorySource};
pub use sink::{Sink, SinkFault, write_all};
pub use source::{Failed, Source};
pub use steps::{Busy, Gate, OpenGate, Steps};
