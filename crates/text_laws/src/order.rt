ghost use Rattle.std.specs.Prelude.{◌≡◌, ◌≤◌, ℕ, List, [], length};
ghost use Rattle.snp_model.specs.declared.reading.Quantity.{Quantity};
ghost use Rattle.snp_model.specs.declared.scenario.Scenario.{Scenario};
ghost use Rattle.snp_model.specs.Ending.{report_of};
ghost use Rattle.snp_model.specs.Journal.{actors_of};
ghost use Rattle.snp_model.specs.Limits.{most};
ghost use Rattle.snp_model.specs.Reading.{Reads, order_of, turns_spell};
ghost use Rattle.snp_model.specs.Report.{order_lines as printed_lines, runs_of};
ghost use Rattle.snp_model.specs.Run.{IsDefined, run_of};
ghost use Rattle.snp_model.specs.ScenarioText.{order_lines, text_of};
ghost use Rattle.snp_model.specs.Sound.{IsSound};
ghost use Rattle.text_laws.specs.Orders.{Opens, ordered, turns_in, turns_of, with_order};

/// A run can be replayed from its report. The order lines of a report are read as just the turns of its schedule: put behind the
/// lines of the scenario that was run, in the place of its own order lines, they make a text that says that scenario with this
/// order, where it isn't too long; and the report of that scenario under its order is the report that they were taken from.
pub fn printed_orders()
    // A report prints the order lines of the schedule whose events it has.
    ensures printed { (c : Scenario) (schedule : List ℕ) → runs_of (actors_of (run_of c schedule)) ≡ runs_of schedule }

    // They are the lines that a scenario with these turns is written with.
    ensures written { (runs : List (ℕ × ℕ)) → printed_lines runs ≡ text_of (order_lines (turns_in runs)) }

    // The turns spell the schedule.
    ensures spelled { (schedule : List ℕ) → turns_spell (turns_of schedule) ≡ schedule }

    // The lines are read as these turns and no others.
    ensures read { (front : List ℕ) (c : Scenario) (schedule : List ℕ) → Opens front c → c.order ≡ [] → IsSound c → IsDefined c schedule
        → length (with_order front schedule) ≤ most Quantity.Bytes → Reads (with_order front schedule) (ordered c schedule) }

    // So what is read has the same run and the same report.
    ensures replayed { (c : Scenario) (schedule : List ℕ) → IsDefined c schedule → IsDefined (ordered c schedule) (order_of (ordered c schedule)) }
    ensures reported { (c : Scenario) (schedule : List ℕ) → report_of (ordered c schedule) (order_of (ordered c schedule)) ≡ report_of c schedule }
{}
