//! The lines of a report so far.
ghost use Rattle.std.specs.Prelude.{◌≡◌, ◌+◌, ◌-◌, ◌<◌, ◌≤◌, ◌^◌, length, drop};
ghost use Rattle.snp_model.specs.Reading.{Valid};
ghost use Rattle.report_audit.specs.Answers.{Says, SaysFault, Leaves};
ghost use Rattle.report_audit.specs.Audit as says;
ghost use Rattle.report_audit.specs.Audit.{hear, hear_ending, hear_guest, end_of};
ghost use Rattle.report_audit.specs.Hearing.{heard_of};
ghost use Rattle.report_audit.specs.Ledgers.{ledger_of};
ghost use Rattle.report_audit.specs.declared.hearing.Stage.TheVariants as stages;

use crate::ending::{is_end, is_guest_line, is_head, is_order_line};
use crate::fault::{AuditFault, AuditReason, LineFault};
use crate::ledger::Ledger;
use report_text::read_line;
use snp_model::Scenario;
use std::alloc::{AllocError, Global};

/// How far a report has come.
#[derive(Clone, Copy, Debug, PartialEq, Eq)]
pub enum Stage {
    /// Nothing yet.
    Nothing,
    /// The first line, and events.
    Events,
    /// Lines of the ending besides.
    Ending,
    /// All.
    Closed,
}

/// The lines so far: how far they have come, their events, and the first run and guest that the ending has still to tell.
#[derive(Drop)]
pub struct Hearing {
    pub stage: Stage,
    pub ledger: Ledger,
    pub at: usize,
    pub told: u32,
}

// The runs from a place on.
fn runs_from(runs: &[(u32, u32)], at: usize) -> &[(u32, u32)]
    requires { at ≤ length runs.now }
    ensures { result.now ≡ drop at runs.now }
{
    &runs[at..]
}

const FORM: LineFault = LineFault::Refused(AuditReason::Form);

impl Hearing {
    /// No line.
    pub fn new(alloc: Global) -> Hearing
        ensures heard { heard_of result ≡ says.nothing }
    {
        Hearing {
            stage: Stage::Nothing,
            ledger: Ledger::none(alloc),
            at: 0,
            told: 0,
        }
    }

    // The first line.
    #[tactic(auto, unfolding(crate::specs::Audit::hear))]
    fn hear_head(
        &mut self,
        alloc: Global,
        scenario: &Scenario,
        line: &[u8],
    ) -> Result<(), LineFault>
        requires valid { Valid scenario.now }
        requires few { length scenario.now.guests ≤ 8 }
        ensures heard { Leaves result (heard_of self.new) (hear scenario.now says.nothing line.now) }
    {
        if !is_head(line, scenario.version) {
            return Err(FORM);
        }
        match Ledger::open(alloc, scenario) {
            Ok(ledger) => {
                self.ledger = ledger;
                self.stage = Stage::Events;
                Ok(())
            }
            Err(_) => Err(LineFault::Memory),
        }
    }

    // A guest line, or the last line.
    #[tactic(auto, unfolding(crate::specs::Audit::hear_guest))]
    fn hear_guest(&mut self, scenario: &Scenario, line: &[u8]) -> Result<(), LineFault>
        requires stage { self.old.stage ≡ stages.Ending }
        requires few { length scenario.now.guests ≤ 8 }
        requires told { length self.old.ledger.runs.items ≤ self.old.at }
        ensures heard { Leaves result (heard_of self.new) (hear_guest scenario.now self.old.ledger.count self.old.told line.now) }
    {
        if (self.told as usize) < scenario.guests.len() {
            if !is_guest_line(self.told + 1, line) {
                return Err(FORM);
            }
            self.told += 1;
            return Ok(());
        }
        if !is_end(line, self.ledger.count) {
            return Err(FORM);
        }
        self.stage = Stage::Closed;
        Ok(())
    }

    // A line of the ending in its place.
    #[tactic(auto, using(crate::proofs::OrderLaws::order_stands), unfolding(crate::specs::Audit::hear_ending))]
    fn hear_ending(&mut self, scenario: &Scenario, line: &[u8]) -> Result<(), LineFault>
        requires stage { self.old.stage ≡ stages.Ending }
        requires few { length scenario.now.guests ≤ 8 }
        ensures heard { Leaves result (heard_of self.new) (hear_ending scenario.now self.old.ledger.count (drop self.old.at self.old.ledger.runs.items) self.old.told line.now) }
    {
        if self.at >= self.ledger.runs.len() {
            return self.hear_guest(scenario, line);
        }
        if !is_order_line(line, runs_from(self.ledger.runs.as_slice(), self.at)) {
            return Err(FORM);
        }
        self.at += 16;
        Ok(())
    }

    // A line behind the first, before any of the ending.
    #[tactic(auto, unfolding(crate::specs::Audit::hear))]
    fn hear_event(&mut self, scenario: &Scenario, line: &[u8]) -> Result<(), LineFault>
        requires stage { self.old.stage ≡ stages.Events }
        requires few { length scenario.now.guests ≤ 8 }
        ensures heard { Leaves result (heard_of self.new) (hear scenario.now (says.events (ledger_of self.old.ledger)) line.now) }
    {
        match read_line(line) {
            Some((k, actor, event)) => {
                if k == self.ledger.count {
                    self.ledger.hear(scenario, actor, &event)
                } else {
                    Err(FORM)
                }
            }
            None => {
                self.stage = Stage::Ending;
                self.at = 0;
                self.told = 0;
                self.hear_ending(scenario, line)
            }
        }
    }

    /// What a line makes of the lines so far, or why it doesn't fit.
    #[tactic(auto, unfolding(crate::specs::Audit::hear))]
    pub fn hear(&mut self, alloc: Global, scenario: &Scenario, line: &[u8]) -> Result<(), LineFault>
        requires valid { Valid scenario.now }
        requires few { length scenario.now.guests ≤ 8 }
        ensures heard { Leaves result (heard_of self.new) (hear scenario.now (heard_of self.old) line.now) }
    {
        match self.stage {
            Stage::Nothing => self.hear_head(alloc, scenario, line),
            Stage::Events => self.hear_event(scenario, line),
            Stage::Ending => self.hear_ending(scenario, line),
            Stage::Closed => Err(FORM),
        }
    }

    /// The end of a text, whose line of this number would be what no line feed ends.
    #[tactic(auto, unfolding(crate::specs::Audit::end_of))]
    pub fn end(&self, line: u32, rest: &[u8]) -> Result<u32, AuditFault>
        ensures { Says result (end_of line (heard_of self.now) rest.now) }
    {
        if !rest.is_empty() {
            return Err(AuditFault::Refused {
                line,
                reason: AuditReason::Form,
            });
        }
        match self.stage {
            Stage::Nothing => Err(AuditFault::Refused {
                line,
                reason: AuditReason::Form,
            }),
            Stage::Events => Err(AuditFault::Refused {
                line,
                reason: AuditReason::Form,
            }),
            Stage::Ending => Err(AuditFault::Refused {
                line,
                reason: AuditReason::Form,
            }),
            Stage::Closed => Ok(self.ledger.count),
        }
    }
}

/// A fault of a line, at its number.
pub fn at_line(line: u32, fault: LineFault) -> AuditFault
    ensures { SaysFault line fault result }
{
    match fault {
        LineFault::Refused(reason) => AuditFault::Refused { line, reason },
        LineFault::NotLegal { expected, found } => AuditFault::NotLegal {
            line,
            expected,
            found,
        },
        LineFault::Memory => AuditFault::Memory(AllocError),
    }
}
