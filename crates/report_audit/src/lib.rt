//! The auditor of reports: whether the lines of a report are those of a scenario, and its events legal.
#![tactic(auto)]

mod auditing;
mod ending;
mod fault;
mod hearing;
mod kinds;
mod laws;
mod ledger;
#[cfg(test)]
mod tests;

pub use auditing::audit;
pub use fault::{AuditFault, AuditReason};
pub use laws::{audited_is_legal, reports_are_heard, runs_are_folded};
