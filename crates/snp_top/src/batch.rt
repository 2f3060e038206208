//! The program's commands, from its words to its exit status.
ghost use Rattle.std.specs.Prelude.{◌≡◌, ◌+◌, ◌≤◌, ◌<◌, ◌^◌, true, false, Some, length, map, string_bytes, Option};
ghost use Rattle.snp_model.specs.CommandLine.{is_replay};
ghost use Rattle.snp_model.specs.Ending.{report_of};
ghost use Rattle.snp_model.specs.Premises.{AreLegal};
ghost use Rattle.snp_model.specs.Limits.{most};
ghost use Rattle.snp_model.specs.Outside.{Adds};
ghost use Rattle.snp_model.specs.Reading.{order_of};
ghost use Rattle.snp_model.specs.Report.{report_text};
ghost use Rattle.snp_model.specs.Run.{IsOrdered};
ghost use Rattle.snp_top.specs.Batch.{Concludes, ForScenario, ReportsTo, SaysRun};
ghost use Rattle.snp_top.specs.Drills.{DrawsOut, SaysDrawn};
ghost use Rattle.snp_top.specs.Exits.{ComesTo, Exits};
ghost use Rattle.snp_top.specs.Faults.{exit_status};
ghost use Rattle.snp_top.specs.Input.{TakesAtMost};
ghost use Rattle.snp_top.specs.Replays.{IsRead};
ghost use Rattle.snp_top.specs.Words.{asks_text, command_of, takes_text, without_threads};

use crate::drilling::{carry_out_drill, carry_out_gen};
use crate::errors::put_error;
use crate::fault::CommandFault;
use crate::measuring::carry_out_measure;
use crate::replay::{Played, replay};
use crate::words::{Asked, Drawn, read_words};
use outside_port::{Sink, Source, write_all};
use report_text::write_report;
use snp_model::Quantity;
use std::alloc::Global;

/// Carries out the command that the words name, reading from the source and writing to the sink, and gives the exit
/// status: 0 what the command writes was written, a report, a digest, a scenario or the lines of a drill; 2 the words are no
/// command; 3 a line of the text is refused; 4 the text passes a limit; 5 the source failed; 6 the sink failed under what the
/// command writes; 7 want of memory, which may come at any growth before the first byte is written; 8 the schedule names an
/// actor that is missing or finished. With a status but 0 and 6 one error line is written. Where a source or a sink doesn't
/// tell its bytes, nothing is said of them.
pub fn snp_batch<S: Source, K: Sink>(
    alloc: Global,
    words: &Vec<String>,
    source: &mut S,
    sink: &mut K,
) -> u8
    // What an exit status tells, of every command but `run`: what was read, and what was written.
    ensures exits { Exits (without_threads (command_of (map string_bytes words.now.items))) result
        (record { left = S.left source.old; read_faults = S.faults source.old; written = K.written sink.old; write_faults = K.faults sink.old })
        (record { left = S.left source.new; read_faults = S.faults source.new; written = K.written sink.new; write_faults = K.faults sink.new }) }

    // The headline of `replay`: the text was read to its end, and it says a scenario whose schedule makes a run.
    ensures source_read { result ≡ 0 → takes_text (map string_bytes words.now.items) ≡ true → IsRead (S.left source.old) (S.left source.new) }
    ensures scenario_read { result ≡ 0 → is_replay (map string_bytes words.now.items) ≡ true → SaysRun (S.left source.old) }

    // The report of that run is written, and nothing else.
    ensures report_written { result ≡ 0 → is_replay (map string_bytes words.now.items) ≡ true → ForScenario (S.left source.old)
        (λ c. Adds (K.written sink.old) (K.written sink.new) (report_of c (order_of c))) }

    // In it each actor's items come once and in order. And if no page is validated by a guest or launched for it while it
    // holds it, and no ciphertext meets the tag of another where a page is opened for it, its private accesses are one legal
    // history of a memory of its own, whatever the hypervisor, the firmware and the other guests do.
    ensures items_in_order { result ≡ 0 → is_replay (map string_bytes words.now.items) ≡ true → ForScenario (S.left source.old) (λ c. IsOrdered c (order_of c)) }
    ensures guest_memory_legal { result ≡ 0 → is_replay (map string_bytes words.now.items) ≡ true → ForScenario (S.left source.old) (λ c. AreLegal c (order_of c)) }

    // Where the words are those of no command that reads a text, the source isn't touched.
    ensures source_unread { takes_text (map string_bytes words.now.items) ≡ false → source.new ≡ source.old }
{
    let asked = read_words(words);
    let outcome = carry_out(alloc, asked, source, sink);
    conclude(outcome, sink)
}

/// Carries out a command that needs no threads. Where it comes to nothing, and writing didn't fail, nothing is written.
pub(crate) fn carry_out<S: Source, K: Sink>(
    alloc: Global,
    asked: Option<Asked>,
    source: &mut S,
    sink: &mut K,
) -> Result<(), CommandFault>
    ensures came { ComesTo (without_threads asked) result
        (record { left = S.left source.old; read_faults = S.faults source.old; written = K.written sink.old; write_faults = K.faults sink.old })
        (record { left = S.left source.new; read_faults = S.faults source.new; written = K.written sink.new; write_faults = K.faults sink.new }) }
    ensures unread { asks_text (without_threads asked) ≡ false → source.new ≡ source.old }
    ensures taken { TakesAtMost (most Quantity.Bytes + 1) (S.left source.old) (S.left source.new) }
    ensures later { (S.faults source.old ≤ S.faults source.new) × (K.faults sink.old ≤ K.faults sink.new) }
{
    match asked {
        None | Some(Asked::Run) => Err(CommandFault::Words),
        Some(Asked::Replay) => carry_out_replay(alloc, source, sink),
        Some(Asked::Measure) => carry_out_measure(alloc, source, sink),
        Some(Asked::Drawn { number, what }) => carry_out_drawn(alloc, number, what, sink),
    }
}

// Carries `replay` out.
fn carry_out_replay<S: Source, K: Sink>(
    alloc: Global,
    source: &mut S,
    sink: &mut K,
) -> Result<(), CommandFault>
    ensures came { ComesTo (Some Asked.Replay) result
        (record { left = S.left source.old; read_faults = S.faults source.old; written = K.written sink.old; write_faults = K.faults sink.old })
        (record { left = S.left source.new; read_faults = S.faults source.new; written = K.written sink.new; write_faults = K.faults sink.new }) }
    ensures taken { TakesAtMost (most Quantity.Bytes + 1) (S.left source.old) (S.left source.new) }
    ensures later { (S.faults source.old ≤ S.faults source.new) × (K.faults sink.old ≤ K.faults sink.new) }
{
    match replay(alloc, source) {
        Ok(played) => report(&played, sink),
        Err(fault) => Err(fault),
    }
}

// Writes what a number determines.
fn carry_out_drawn<K: Sink>(
    alloc: Global,
    number: u64,
    what: Drawn,
    sink: &mut K,
) -> Result<(), CommandFault>
    ensures answer { DrawsOut (SaysDrawn what number) (K.written sink.old) (K.written sink.new) (K.faults sink.old) (K.faults sink.new) result }
    ensures later { K.faults sink.old ≤ K.faults sink.new }
{
    match what {
        Drawn::Gen => carry_out_gen(alloc, number, sink),
        Drawn::Drill => carry_out_drill(alloc, number, sink),
    }
}

// Writes the report of a replay.
fn report<K: Sink>(played: &Played, sink: &mut K) -> Result<(), CommandFault>
    requires version { (1 ≤ played.now.version) × (played.now.version ≤ 2) }
    requires short { length played.now.journal.list < 2 ^ 32 }
    ensures later { K.faults sink.old ≤ K.faults sink.new }
    ensures written { ReportsTo (K.written sink.old) (K.written sink.new) (K.faults sink.old) (K.faults sink.new) (report_text played.now.version played.now.journal.list played.now.guests.items) result }
{
    match write_report(played.version, &played.journal, &played.guests, sink) {
        Ok(()) => Ok(()),
        Err(_) => Err(CommandFault::Write),
    }
}

/// Ends a command: writes its error line, if it came to nothing, or a front of it where the sink fails, and gives the exit status.
pub(crate) fn conclude<K: Sink>(outcome: Result<(), CommandFault>, sink: &mut K) -> u8
    ensures status { result ≡ exit_status outcome }
    ensures line { Concludes outcome (K.written sink.old) (K.written sink.new) (K.faults sink.old) (K.faults sink.new) }
    ensures later { K.faults sink.old ≤ K.faults sink.new }
{
    match outcome {
        Ok(()) => 0,
        Err(fault) => {
            let mut line = [0; 64];
            let end = put_error(&mut line, fault);
            let _ = write_all(sink, &line[..end]);
            fault.status()
        }
    }
}
