//! The program's commands, those that need threads among them, from its words to its exit status.
ghost use Rattle.std.specs.Prelude.{◌≡◌, ◌+◌, ◌≤◌, ◌<◌, true, false, Some, IfSome, OnOk, length, map, string_bytes};
ghost use Rattle.snp_model.specs.Limits.{most};
ghost use Rattle.snp_model.specs.Outside.{Adds, AddsPrefix};
ghost use Rattle.snp_top.specs.Exits.{ComesTo, Exits};
ghost use Rattle.snp_top.specs.Input.{TakesAtMost};
ghost use Rattle.snp_top.specs.Replays.{IsRead, SaysOne};
ghost use Rattle.snp_top.specs.Runs.{IsReported, OnCut, ReportsKept, is_run, reads_scenario, reads_text};
ghost use Rattle.snp_top.specs.Words.{command_of};

use crate::batch::{carry_out, conclude};
use crate::fault::CommandFault;
use crate::fleet::Fleet;
use crate::replay::read;
use crate::run::run;
use crate::words::{Asked, is_run, read_words};
use outside_port::{Gate, Sink, Source};
use snp_model::Quantity;
use std::alloc::Global;
use std::sync::Wait;
use std::thread::Threads;

/// Carries out the command that the words name, as `snp_batch` does, and `run` besides: it reads a scenario, passes over
/// its order lines, builds by the fleet what one worker for each actor steps, each step after the gate let it through, and
/// reports the run that the fleet keeps when all are finished. A worker's thread may wait for another's. The statuses are
/// those of `snp_batch`, but that `run` never gives 8.
pub fn snp_main<S: Source, K: Sink, G: Gate + Sync, F: Fleet, R: Threads + Wait + Sync>(
    rt: &R,
    alloc: Global,
    words: &Vec<String>,
    source: &mut S,
    sink: &mut K,
    gate: &G,
    fleet: &mut F,
) -> u8
    // What an exit status tells, of every command: what was read, and what was written.
    ensures exits { Exits (command_of (map string_bytes words.now.items)) result
        (record { left = S.left source.old; read_faults = S.faults source.old; written = K.written sink.old; write_faults = K.faults sink.old })
        (record { left = S.left source.new; read_faults = S.faults source.new; written = K.written sink.new; write_faults = K.faults sink.new }) }

    // The headline of `replay` and `run`: the text was read to its end, and it says a scenario. The report of one run of it
    // is written, and nothing else. The schedule of that run is that of the order lines, or, under `run`, one that finishes every actor.
    ensures source_read { result ≡ 0 → reads_text (map string_bytes words.now.items) ≡ true → IsRead (S.left source.old) (S.left source.new) }
    ensures reported { result ≡ 0 → reads_scenario (map string_bytes words.now.items) ≡ true → IfSome (S.left source.old)
        (SaysOne (λ c. IsReported (is_run (map string_bytes words.now.items)) c (Adds (K.written sink.old) (K.written sink.new)))) }

    // Under `run`, unless the scenario has no actor, the fleet's opening is that scenario, and what was written is the report of
    // the run that the fleet keeps: its schedule is that of the kept events. With status 6 it is a front of that report. No other
    // command touches the fleet.
    ensures fleet_keeps { result ≡ 0 → is_run (map string_bytes words.now.items) ≡ true → IfSome (S.left source.old)
        (SaysOne (λ c. 0 < length c.actors → ReportsKept c (F.opening fleet.new) (F.kept fleet.new) (Adds (K.written sink.old) (K.written sink.new)))) }
    ensures fleet_cut { result ≡ 6 → is_run (map string_bytes words.now.items) ≡ true → IfSome (S.left source.old)
        (SaysOne (λ c. 0 < length c.actors → ReportsKept c (F.opening fleet.new) (F.kept fleet.new) (AddsPrefix (K.written sink.old) (K.written sink.new)))) }
    ensures fleet_untouched { is_run (map string_bytes words.now.items) ≡ false → fleet.new ≡ fleet.old }

    // Where the words are those of no command that reads a text, the source isn't touched.
    ensures source_unread { reads_text (map string_bytes words.now.items) ≡ false → source.new ≡ source.old }
{
    let asked = read_words(words);
    if is_run(asked) {
        let outcome = carry_out_run(rt, alloc, source, sink, gate, fleet);
        conclude(outcome, sink)
    } else {
        let outcome = carry_out(alloc, asked, source, sink);
        conclude(outcome, sink)
    }
}

// Carries `run` out.
fn carry_out_run<S: Source, K: Sink, G: Gate + Sync, F: Fleet, R: Threads + Wait + Sync>(
    rt: &R,
    alloc: Global,
    source: &mut S,
    sink: &mut K,
    gate: &G,
    fleet: &mut F,
) -> Result<(), CommandFault>
    ensures came { ComesTo (Some Asked.Run) result
        (record { left = S.left source.old; read_faults = S.faults source.old; written = K.written sink.old; write_faults = K.faults sink.old })
        (record { left = S.left source.new; read_faults = S.faults source.new; written = K.written sink.new; write_faults = K.faults sink.new }) }
    ensures fleet_keeps { OnOk result (IfSome (S.left source.old)
        (SaysOne (λ c. 0 < length c.actors → ReportsKept c (F.opening fleet.new) (F.kept fleet.new) (Adds (K.written sink.old) (K.written sink.new))))) }
    ensures fleet_cut { OnCut result (IfSome (S.left source.old)
        (SaysOne (λ c. 0 < length c.actors → ReportsKept c (F.opening fleet.new) (F.kept fleet.new) (AddsPrefix (K.written sink.old) (K.written sink.new))))) }
    ensures taken { TakesAtMost (most Quantity.Bytes + 1) (S.left source.old) (S.left source.new) }
    ensures later { (S.faults source.old ≤ S.faults source.new) × (K.faults sink.old ≤ K.faults sink.new) }
{
    match read(alloc, source) {
        Ok(scenario) => run(rt, alloc, &scenario, sink, gate, fleet),
        Err(fault) => Err(fault),
    }
}
