//! A command over a writer that holds its output back.
ghost use Rattle.std.specs.Prelude.{◌≡◌, ◌+◌, ◌<◌, ◌≢◌, true, false, IfSome, length, map, string_bytes};
ghost use Rattle.snp_model.specs.Outside.{Adds, AddsPrefix};
ghost use Rattle.snp_top.specs.Exits.{Exits};
ghost use Rattle.snp_top.specs.Replays.{IsRead, SaysOne};
ghost use Rattle.snp_top.specs.Runs.{IsReported, ReportsKept, is_run, reads_scenario, reads_text};
ghost use Rattle.snp_top.specs.Words.{command_of};

use outside_port::{Failed, Gate, Source, WriterSink};
use snp_top::fleet::Fleet;
use snp_top::program::snp_main;
use std::alloc::Global;
use std::io::Write;
use std::sync::Wait;
use std::thread::Threads;

/// Where the output couldn't be written.
const UNWRITTEN: u8 = 6;

/// Carries out the command that the words name, hands on what the writer holds back of its output, and gives the exit
/// status: that of `snp_main`, but 6 where that is 0 and the writer fails at the end.
pub fn answer<S: Source, W: Write, G: Gate + Sync, F: Fleet, R: Threads + Wait + Sync>(
    rt: &R,
    alloc: Global,
    words: &Vec<String>,
    source: &mut S,
    sink: &mut WriterSink<W>,
    gate: &G,
    fleet: &mut F,
) -> u8
    // What an exit status tells, of every command: what was read, and what was given to the writer. With status 0 the writer has
    // handed on what it held back.
    ensures exits { Exits (command_of (map string_bytes words.now.items)) result
        (record { left = S.left source.old; read_faults = S.faults source.old; written = sink.old.written; write_faults = sink.old.faults })
        (record { left = S.left source.new; read_faults = S.faults source.new; written = sink.new.written; write_faults = sink.new.faults }) }

    // The headline, as that of `snp_main`.
    ensures source_read { result ≡ 0 → reads_text (map string_bytes words.now.items) ≡ true → IsRead (S.left source.old) (S.left source.new) }
    ensures reported { result ≡ 0 → reads_scenario (map string_bytes words.now.items) ≡ true → IfSome (S.left source.old)
        (SaysOne (λ c. IsReported (is_run (map string_bytes words.now.items)) c (Adds sink.old.written sink.new.written))) }
    ensures fleet_keeps { result ≡ 0 → is_run (map string_bytes words.now.items) ≡ true → IfSome (S.left source.old)
        (SaysOne (λ c. 0 < length c.actors → ReportsKept c (F.opening fleet.new) (F.kept fleet.new) (Adds sink.old.written sink.new.written))) }
    ensures fleet_cut { result ≡ 6 → is_run (map string_bytes words.now.items) ≡ true → IfSome (S.left source.old)
        (SaysOne (λ c. 0 < length c.actors → ReportsKept c (F.opening fleet.new) (F.kept fleet.new) (AddsPrefix sink.old.written sink.new.written))) }
    ensures fleet_untouched { is_run (map string_bytes words.now.items) ≡ false → fleet.new ≡ fleet.old }
    ensures source_unread { reads_text (map string_bytes words.now.items) ≡ false → source.new ≡ source.old }
{
    let status = snp_main(rt, alloc, words, source, sink, gate, fleet);
    match sink.flush() {
        Ok(()) => status,
        Err(Failed) => unflushed(status),
    }
}

// The status of a command whose output couldn't be handed on.
fn unflushed(status: u8) -> u8
    ensures done { status ≡ 0 → result ≡ 6 }
    ensures other { status ≢ 0 → result ≡ status }
{
    if status == 0 { UNWRITTEN } else { status }
}
