//! Laws of the definitions.
ghost use Rattle.std.specs.Prelude.{◌≡◌, ◌≢◌, ℕ, ◌≤◌, ◌<◌, ◌⊎◌, ◌↔◌, true, false, List, None, Some, IfSome, codes, length};
ghost use Rattle.snp_model.specs.declared.scenario.Scenario.{Scenario};
ghost use Rattle.snp_model.specs.CommandLine.{drill_number, gen_number, is_measure, is_replay};
ghost use Rattle.snp_model.specs.Drill.{IsPicked};
ghost use Rattle.snp_model.specs.Limits.{most};
ghost use Rattle.snp_model.specs.MeasureText.{RefusesPages, SaysPages};
ghost use Rattle.snp_model.specs.Measurement.{LaunchedPage};
ghost use Rattle.snp_model.specs.Opening.{opening};
ghost use Rattle.snp_model.specs.Outside.{AddsPrefix, Rose};
ghost use Rattle.snp_model.specs.Reading.{Passes, Reads, Refuses, order_of};
ghost use Rattle.snp_model.specs.Run.{IsDefined};
ghost use Rattle.snp_top.specs.Batch.{Outside, SaysBadTurn, SaysLimit, SaysRefusal, Wrote};
ghost use Rattle.snp_top.specs.Drills.{CutsDrill, CutsScenario, WritesDrill, WritesScenario};
ghost use Rattle.snp_top.specs.Exits.{Exits, Tells};
ghost use Rattle.snp_top.specs.Input.{TakesAtMost};
ghost use Rattle.snp_top.specs.Measures.{SaysCutDigest, SaysPageRefusal, WritesDigest};
ghost use Rattle.snp_top.specs.Replays.{ReadsText, SaysOne};
ghost use Rattle.snp_top.specs.Runs.{IsReported, are_commands, is_run, reads_scenario, reads_text};
ghost use Rattle.snp_top.specs.Schedule.{IsFirstBad};
ghost use Rattle.snp_top.specs.Words.{AsksFor, command_of, takes_text, without_threads};

use crate::words::{Asked, Drawn};
use snp_model::{Quantity, Reason};

/// A number's drill has a schedule, and one alone. A law, which no program needs to call.
#[tactic(auto, using(crate::proofs::PickLaws::one_schedule, crate::proofs::PickLaws::some_picked))]
pub fn drills_have_one_schedule()
    ensures some_drill { (number : ℕ) → (schedule : List ℕ) × IsPicked number schedule }
    ensures one_drill { (number : ℕ) (s t : List ℕ) → IsPicked number s → IsPicked number t → s ≡ t }
{}

/// What the words ask for. A law, which no program needs to call.
pub fn asking_words()
    ensures replay_words { (words : List (List ℕ)) → (is_replay words ≡ true) ↔ (command_of words ≡ Some Asked.Replay) }
    ensures run_words { (words : List (List ℕ)) → (is_run words ≡ true) ↔ (command_of words ≡ Some Asked.Run) }
    ensures measure_words { (words : List (List ℕ)) → (is_measure words ≡ true) ↔ (command_of words ≡ Some Asked.Measure) }
    ensures gen_words { (words : List (List ℕ)) (number : ℕ) → (gen_number words ≡ Some number) ↔ (command_of words ≡ Some (Asked.Drawn number Drawn.Gen)) }
    ensures drill_words { (words : List (List ℕ)) (number : ℕ) → (drill_number words ≡ Some number) ↔ (command_of words ≡ Some (Asked.Drawn number Drawn.Drill)) }
    ensures no_words { (words : List (List ℕ)) → (are_commands words ≡ false) ↔ (command_of words ≡ None) }

    // `gen`, `drill` and words of no command ask for no text.
    ensures drawn_unread { (words : List (List ℕ)) (number : ℕ) → AsksFor number words → (reads_text words ≡ false) × (takes_text words ≡ false) }
    ensures none_unread { (words : List (List ℕ)) → are_commands words ≡ false → reads_text words ≡ false }
    ensures batch_unread { (words : List (List ℕ)) → without_threads (command_of words) ≡ None → takes_text words ≡ false }

    // Where no command is taken that needs threads, `run` is none, and any other is the same.
    ensures without_run { (words : List (List ℕ)) → is_run words ≡ true → without_threads (command_of words) ≡ None }
    ensures others { (words : List (List ℕ)) → is_run words ≡ false → without_threads (command_of words) ≡ command_of words }
    ensures nothing_asked { (status : ℕ) (before now : Outside) → Exits None status before now → (status ≡ 2) × Wrote before now (codes "error words\n") }
{}

/// What an exit status tells of the words, the text, the source and the sink: its cause, and what is then written. A
/// law, which no program needs to call.
pub fn exit_statuses()
    // There are no other statuses than 0 and 2 to 8.
    ensures statuses { Tells (λ words status before now. (status ≤ 8) × (status ≢ 1)) }

    // 2: the words are looked at first.
    ensures words_refused { Tells (λ words status before now. (status ≡ 2) ↔ (are_commands words ≡ false)) }
    ensures words_line { Tells (λ words status before now. status ≡ 2 → Wrote before now (codes "error words\n")) }

    // 3: a line of the text is the first thing that is wrong.
    ensures scenario_refused { Tells (λ words status before now. status ≡ 3 → reads_scenario words ≡ true → SaysRefusal before.left now.left before.written now.written before.write_faults now.write_faults) }
    ensures pages_refused { Tells (λ words status before now. status ≡ 3 → is_measure words ≡ true → SaysPageRefusal before.left now.left before.written now.written before.write_faults now.write_faults) }

    // 4: or a limit is: the text's own length, which is the only one of a measure text, or a quantity with a line.
    ensures limit_passed { Tells (λ words status before now. status ≡ 4 → SaysLimit before.left now.left before.written now.written before.write_faults now.write_faults) }
    ensures pages_too_long { Tells (λ words status before now. status ≡ 4 → is_measure words ≡ true → IfSome before.left (λ text. most Quantity.Bytes < length text)) }

    // 5: the source failed, before the text was read to its end.
    ensures read_failed { Tells (λ words status before now. status ≡ 5 → Rose before.read_faults now.read_faults) }
    ensures read_stopped { Tells (λ words status before now. status ≡ 5 → TakesAtMost (most Quantity.Bytes) before.left now.left) }
    ensures read_line { Tells (λ words status before now. status ≡ 5 → Wrote before now (codes "error read\n")) }

    // 6: the sink failed under what the command writes.
    ensures write_failed { Tells (λ words status before now. status ≡ 6 → Rose before.write_faults now.write_faults) }

    // 7: want of memory is free.
    ensures memory_line { Tells (λ words status before now. status ≡ 7 → Wrote before now (codes "error memory\n")) }

    // 8: the text says a scenario, and its schedule names an actor that is missing or finished; `run` doesn't look at it.
    ensures schedule_refused { Tells (λ words status before now. status ≡ 8 → SaysBadTurn before.left now.left before.written now.written before.write_faults now.write_faults) }
    ensures run_has_no_schedule { Tells (λ words status before now. status ≡ 8 → is_run words ≡ false) }
    ensures pages_have_no_schedule { Tells (λ words status before now. status ≡ 8 → is_measure words ≡ false) }

    // `gen` and `drill` read nothing.
    ensures drawn_statuses { Tells (λ words status before now. (number : ℕ) → AsksFor number words → (status ≡ 0) ⊎ ((status ≡ 6) ⊎ (status ≡ 7))) }
{}

/// What a command writes with status 0, and of what it writes a front with status 6. A law, which no program needs to
/// call.
pub fn command_outputs()
    // 0: the line that tells the launch digest of the pages, the scenario of the number, or the lines that tell of its drill.
    ensures digest_written { Tells (λ words status before now. status ≡ 0 → is_measure words ≡ true → WritesDigest before.left now.left before.written now.written) }
    ensures scenario_drawn { Tells (λ words status before now. (number : ℕ) → status ≡ 0 → gen_number words ≡ Some number → WritesScenario number before.written now.written) }
    ensures drill_written { Tells (λ words status before now. (number : ℕ) → status ≡ 0 → drill_number words ≡ Some number → WritesDrill number before.written now.written) }

    // 6: a front of it, or of the report.
    ensures report_cut { Tells (λ words status before now. status ≡ 6 → reads_scenario words ≡ true → ReadsText before.left now.left (SaysOne (λ c. IsReported (is_run words) c (AddsPrefix before.written now.written)))) }
    ensures digest_cut { Tells (λ words status before now. status ≡ 6 → is_measure words ≡ true → SaysCutDigest before.left now.left before.written now.written) }
    ensures scenario_cut { Tells (λ words status before now. (number : ℕ) → status ≡ 6 → gen_number words ≡ Some number → CutsScenario number before.written now.written) }
    ensures drill_cut { Tells (λ words status before now. (number : ℕ) → status ≡ 6 → drill_number words ≡ Some number → CutsDrill number before.written now.written) }
{}

/// Which status comes where a text is refused. Only a failing source and want of memory may come before it. A law,
/// which no program needs to call.
pub fn cause_statuses()
    ensures scenario_refused_where { Tells (λ words status before now. (text : List ℕ) (line : ℕ) (reason : Reason) → reads_scenario words ≡ true
        → before.left ≡ Some text → Refuses text line reason → (status ≡ 3) ⊎ ((status ≡ 5) ⊎ (status ≡ 7))) }
    ensures pages_refused_where { Tells (λ words status before now. (text : List ℕ) (line : ℕ) (reason : Reason) → is_measure words ≡ true
        → before.left ≡ Some text → RefusesPages text line reason → (status ≡ 3) ⊎ ((status ≡ 5) ⊎ (status ≡ 7))) }
    ensures limit_passed_where { Tells (λ words status before now. (text : List ℕ) (quantity : Quantity) (count : ℕ) → reads_scenario words ≡ true
        → before.left ≡ Some text → Passes text quantity count → (status ≡ 4) ⊎ ((status ≡ 5) ⊎ (status ≡ 7))) }
    ensures pages_too_long_where { Tells (λ words status before now. (text : List ℕ) → is_measure words ≡ true
        → before.left ≡ Some text → most Quantity.Bytes < length text → (status ≡ 4) ⊎ ((status ≡ 5) ⊎ (status ≡ 7))) }
    ensures schedule_refused_where { Tells (λ words status before now. (text : List ℕ) (c : Scenario) (entry actor : ℕ) → is_replay words ≡ true
        → before.left ≡ Some text → Reads text c → IsFirstBad (opening c) (order_of c) entry actor → (status ≡ 8) ⊎ ((status ≡ 5) ⊎ (status ≡ 7))) }
{}

/// Where no count of faults rose, nothing but want of memory keeps a command from its end. A law, which no program
/// needs to call.
pub fn complete_commands()
    // Neither the report of a replay whose schedule makes a run,
    ensures replay_complete { Tells (λ words status before now. (text : List ℕ) (c : Scenario) → is_replay words ≡ true
        → before.left ≡ Some text → Reads text c → IsDefined c (order_of c) → (Rose before.read_faults now.read_faults → ⊥) → (Rose before.write_faults now.write_faults → ⊥) → (status ≡ 0) ⊎ (status ≡ 7)) }

    // nor that of `run`, whatever the order lines are,
    ensures run_complete { Tells (λ words status before now. (text : List ℕ) (c : Scenario) → is_run words ≡ true
        → before.left ≡ Some text → Reads text c → (Rose before.read_faults now.read_faults → ⊥) → (Rose before.write_faults now.write_faults → ⊥) → (status ≡ 0) ⊎ (status ≡ 7)) }

    // nor the digest of pages,
    ensures digest_complete { Tells (λ words status before now. (text : List ℕ) (pages : List LaunchedPage) → is_measure words ≡ true
        → before.left ≡ Some text → SaysPages text pages → (Rose before.read_faults now.read_faults → ⊥) → (Rose before.write_faults now.write_faults → ⊥) → (status ≡ 0) ⊎ (status ≡ 7)) }

    // nor what a number determines.
    ensures drawn_complete { Tells (λ words status before now. (number : ℕ) → AsksFor number words → (Rose before.write_faults now.write_faults → ⊥) → (status ≡ 0) ⊎ (status ≡ 7)) }
{}
