//! The types of the machine, and every definition that two crates cite.
#![tactic(auto)]

mod access;
mod attempts;
mod command;
mod entry;
mod event;
mod fault;
mod firmware;
mod item;
mod listed;
mod reading;
mod report;
mod same;
mod scenario;
mod standards;
mod walk;

pub use access::{Place, Verdict};
pub use command::Command;
pub use entry::{Kind, PageSize, RmpEntry};
pub use event::{Deed, Event, FwRefusal, InUse, Outcome, OutcomeClass, Refusal};
pub use fault::NestedFault;
pub use firmware::{GuestState, MetaEntry, PageState, Part};
pub use item::{Item, Line, Op, SkipTest, Update};
pub use listed::Listed;
pub use reading::{Quantity, Reason};
pub use report::GuestLine;
pub use scenario::{Actor, GuestSpec, PageSpec, Paging, Role, Scenario, Turn, WordSpec};
pub use standards::{cipher_vectors, digest_vectors, measurement_vectors, sealing_vectors};
pub use walk::{GuestEnd, GuestPath, Lookup, Need, NestedEnd, NestedPath};
