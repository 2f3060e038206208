//! Laws of audits and runs: the report that a run makes is audited with yes. The functions do nothing, and their contracts are the
//! laws.
#![tactic(auto)]

mod laws;

pub use laws::own_reports;
