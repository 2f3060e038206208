//! What an audit that says yes tells.

ghost use Rattle.std.specs.Prelude.{◌≡◌, ℕ, List, [], length, Ok};
ghost use Rattle.snp_model.specs.declared.event.Event.{Event};
ghost use Rattle.snp_model.specs.declared.report.GuestLine.{GuestLine};
ghost use Rattle.snp_model.specs.declared.scenario.Scenario.{Scenario};
ghost use Rattle.snp_model.specs.Report.{report_text, runs_of};
ghost use Rattle.report_audit.specs.Again.{IsWritten, hear_events, opening_ledger};
ghost use Rattle.report_audit.specs.Audit.{Ledger, audit_of};
ghost use Rattle.report_audit.specs.Folds.{runs_folded};
ghost use Rattle.report_audit.specs.Told.{IsLegalReport};

/// A law: where an audit says yes, the text is the lines of events that are legal for each guest that the scenario opens, and
/// then an ending.
#[tactic(auto, using(crate::proofs::ReportLaws::audited_legal))]
pub fn audited_is_legal()
    ensures { (c : Scenario) (first : ℕ) (text : List ℕ) (count : ℕ) → audit_of c first text ≡ Ok count → IsLegalReport c text count }
{}

/// A law: the runs that an audit keeps are those of the events' actors, as a report has them.
#[tactic(auto, using(crate::proofs::FoldLaws::folded_runs))]
pub fn runs_are_folded()
    ensures { (actors : List ℕ) → runs_folded [] actors ≡ runs_of actors }
{}

/// A law: the text of a report whose events are heard one by one, from the opening on, is audited with their number.
#[tactic(auto, using(crate::proofs::ReportAgain::report_heard))]
pub fn reports_are_heard()
    ensures { (c : Scenario) (first : ℕ) (entries : List (ℕ × Event)) (guests : List GuestLine) (last : Ledger) → IsWritten c entries guests
        → hear_events c (opening_ledger c) entries ≡ Ok last → audit_of c first (report_text c.version entries guests) ≡ Ok (length entries) }
{}
