ghost use Rattle.std.specs.Prelude.{◌≡◌, ℕ, true, List, length, Ok};
ghost use Rattle.snp_model.specs.declared.scenario.Scenario.{Scenario};
ghost use Rattle.snp_model.specs.Ending.{lines_of, report_of};
ghost use Rattle.snp_model.specs.GuestMemory.{next_use};
ghost use Rattle.snp_model.specs.Reading.{Valid};
ghost use Rattle.snp_model.specs.Run.{IsDefined, run_of, state_after};
ghost use Rattle.snp_model.specs.ScenarioLines.{is_opened};
ghost use Rattle.snp_model.specs.Sound.{IsSound};
ghost use Rattle.snp_model.specs.Spelled.{IsSpelled};
ghost use Rattle.snp_model.specs.State.{IsUnfinished};
ghost use Rattle.snp_model.specs.Step.{event_of};
ghost use Rattle.report_text.specs.EventNumbers.{IsEvent};
ghost use Rattle.report_audit.specs.Again.{IsWritten};
ghost use Rattle.report_audit.specs.Audit.{audit_of};
ghost use Rattle.report_audit.specs.Told.{said_use};
ghost use Rattle.audit_laws.specs.Premises.{MeetPremises};

/// Laws of the report that a run makes: what an audit reads there is the run, and where each guest that the scenario opens meets
/// both premises (`MeetPremises`) the audit says yes.
///
/// A scenario that some text can say, `Valid`, is one that is sound and spelled.
pub fn own_reports()
    // The numbers of each event fit the types that a line of a report is read into.
    ensures fits { (c : Scenario) (s : List ℕ) (actor : ℕ) → IsSound c → IsSpelled c → IsDefined c s → IsUnfinished (state_after c s) actor → IsEvent (event_of (state_after c s) actor) }

    // So what the report is made of is read again, line by line.
    ensures written { (c : Scenario) (s : List ℕ) → IsSound c → IsSpelled c → IsDefined c s → IsWritten c (run_of c s) (lines_of (state_after c s)) }

    // What a line says that an event did with the memory of an opened guest is what it did in the run.
    ensures said { (c : Scenario) (s : List ℕ) (actor guest : ℕ) → IsSound c → IsDefined c s → IsUnfinished (state_after c s) actor → is_opened c.guests guest ≡ true
        → said_use c guest (actor, event_of (state_after c s) actor) ≡ next_use guest (state_after c s) actor }

    // No false refusal: the report is audited with the number of its events.
    ensures audited { (c : Scenario) (s : List ℕ) (first : ℕ) → Valid c → IsDefined c s → MeetPremises c s → audit_of c first (report_of c s) ≡ Ok (length s) }
{}
