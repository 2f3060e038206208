//! `gen` and `drill`: what a number determines.
ghost use Rattle.std.specs.Prelude.{◌≡◌, ◌+◌, ◌^◌, ◌<◌, ◌≤◌, ◌++◌, length, take, decimal, IfOk};
ghost use Rattle.snp_model.specs.Drill.{count_where, drill_lines, is_some_where};
ghost use Rattle.snp_model.specs.Report.{line, report_text};
ghost use Rattle.snp_top.specs.Drills.{DrawsOut, IsDrilled, SaysDrawn, is_of, tally_text};

use crate::fault::CommandFault;
use crate::hashing::hash_report;
use crate::picking::play_picks;
use crate::replay::{Played, take_guests};
use crate::schedule::empty_journal;
use crate::words::Drawn;
use drill_gen::Drill;
use machine_core::Machine;
use outside_port::{Sink, write_all};
use run_journal::Journal;
use scenario_text::write_scenario;
use script_text::base16::put_bytes;
use script_text::pen::{put, put_named};
use snp_model::Outcome;
use std::alloc::{AllocError, Global};

/// Carries `gen` out: writes the scenario of a number. For want of memory nothing is written.
pub fn carry_out_gen<K: Sink>(alloc: Global, number: u64, sink: &mut K) -> Result<(), CommandFault>
    ensures answer { DrawsOut (SaysDrawn Drawn.Gen number) (K.written sink.old) (K.written sink.new) (K.faults sink.old) (K.faults sink.new) result }
    ensures later { K.faults sink.old ≤ K.faults sink.new }
{
    match Drill::from_number(number).scenario(alloc) {
        Ok(scenario) => match write_scenario(&scenario, sink) {
            Ok(()) => Ok(()),
            Err(_) => Err(CommandFault::Write),
        },
        Err(_) => Err(CommandFault::Memory),
    }
}

/// Carries `drill` out: runs the drill of a number and writes the lines that tell of it. For want of memory nothing is
/// written.
pub fn carry_out_drill<K: Sink>(
    alloc: Global,
    number: u64,
    sink: &mut K,
) -> Result<(), CommandFault>
    ensures answer { DrawsOut (SaysDrawn Drawn.Drill number) (K.written sink.old) (K.written sink.new) (K.faults sink.old) (K.faults sink.new) result }
    ensures later { K.faults sink.old ≤ K.faults sink.new }
{
    match run_drill(alloc, number) {
        Ok(played) => tell(number, &played, sink),
        Err(_) => Err(CommandFault::Memory),
    }
}

// Runs the drill of a number. All memory is taken before the first event.
fn run_drill(alloc: Global, number: u64) -> Result<Played, AllocError>
    ensures drilled { IfOk result (IsDrilled number) }
    ensures version { IfOk result (λ played. (1 ≤ played.version) × (played.version ≤ 2)) }
    ensures short { IfOk result (λ played. length played.journal.list ≤ 262_144) }
{
    let mut drill = Drill::from_number(number);
    let scenario = drill.scenario(alloc)?;
    let mut machine = Machine::build(alloc, &scenario)?;
    let mut guests = Vec::with_capacity(alloc, machine.guests() as usize)?;
    let mut journal = empty_journal(alloc, &scenario)?;
    let actors = scenario.actors.as_slice().len() as u32;
    play_picks(&mut machine, &mut journal, &mut drill, actors);
    take_guests(&machine, &mut guests);
    Ok(Played {
        version: scenario.version,
        journal,
        guests,
    })
}

// Writes the lines that tell of a drill.
fn tell<K: Sink>(number: u64, played: &Played, sink: &mut K) -> Result<(), CommandFault>
    requires drilled { IsDrilled number played.now }
    requires version { (1 ≤ played.now.version) × (played.now.version ≤ 2) }
    requires short { length played.now.journal.list < 2 ^ 32 }
    ensures answer { DrawsOut (SaysDrawn Drawn.Drill number) (K.written sink.old) (K.written sink.new) (K.faults sink.old) (K.faults sink.new) result }
    ensures later { K.faults sink.old ≤ K.faults sink.new }
{
    let mut lines = [0; 256];
    let end = put_tally(&mut lines, &tally_of(number, played));
    match write_all(sink, &lines[..end]) {
        Ok(()) => Ok(()),
        Err(_) => Err(CommandFault::Write),
    }
}

/// What a drill came to.
#[derive(Drop)]
pub struct Tally {
    /// The number of the drill.
    pub number: u64,
    /// How many events it has.
    pub events: u64,
    /// How many of them have an outcome that is good.
    pub good: u64,
    /// How many tell of something that was in use.
    pub in_use: u64,
    /// How many have another outcome.
    pub other: u64,
    /// The SHA-256 digest of its report.
    pub digest: [u8; 32],
}

// What a drill came to.
#[tactic(auto, unfolding(crate::specs::Drills::tally_text, snp_model::specs::Drill::drill_lines))]
fn tally_of(number: u64, played: &Played) -> Tally
    requires version { (1 ≤ played.now.version) × (played.now.version ≤ 2) }
    requires short { length played.now.journal.list < 2 ^ 32 }
    ensures { tally_text result ≡ drill_lines number played.now.journal.list (report_text played.now.version played.now.journal.list played.now.guests.items) }
{
    let journal = &played.journal;
    Tally {
        number,
        events: journal.len() as u64,
        good: count(journal, Sort::Good),
        in_use: count(journal, Sort::InUse),
        other: count(journal, Sort::Other),
        digest: hash_report(played.version, journal, &played.guests),
    }
}

/// The outcomes that are counted together.
#[derive(Clone, Copy, Debug, PartialEq, Eq)]
pub enum Sort {
    /// Those that are good.
    Good,
    /// Those that tell of something that was in use.
    InUse,
    /// The others, skips among them.
    Other,
}

// Whether an outcome is of a sort.
fn is_of(sort: Sort, outcome: &Outcome) -> bool
    ensures { result ≡ is_of sort outcome.now }
{
    match sort {
        Sort::Good => outcome.is_good(),
        Sort::InUse => outcome.is_in_use(),
        Sort::Other => !outcome.is_good() && !outcome.is_in_use(),
    }
}

// How many events have an outcome of a sort.
fn count(journal: &Journal, sort: Sort) -> u64
    ensures { result ≡ count_where (is_of sort) journal.now.list }
{
    let mut count = 0;
    'events: for k in 0..journal.len() {
        if has(journal.outcome(k), sort) {
            count += 1;
        }
    }
    count
}

// Whether there is an outcome and it is of a sort.
fn has(outcome: Option<Outcome>, sort: Sort) -> bool
    ensures { result ≡ is_some_where (is_of sort) outcome }
{
    match outcome {
        None => false,
        Some(outcome) => is_of(sort, &outcome),
    }
}

// Puts the lines that tell what a drill came to.
#[tactic(auto, unfolding(crate::specs::Drills::tally_text))]
fn put_tally(out: &mut [u8; 256], tally: &Tally) -> usize
    ensures end { result ≤ 256 }
    ensures lines { take result out.new ≡ tally_text tally.now }
{
    let at = put_count(out, 0, b"drill ", tally.number);
    let at = put_count(out, at, b"events ", tally.events);
    let at = put_count(out, at, b"good ", tally.good);
    let at = put_count(out, at, b"inuse ", tally.in_use);
    let at = put_count(out, at, b"bad ", tally.other);
    let at = put(out, at, b"report ");
    let at = put_bytes(out, at, &tally.digest);
    put(out, at, b"\n")
}

// Puts a line of a name and a number.
fn put_count(out: &mut [u8], at: usize, name: &[u8], number: u64) -> usize
    requires { at + length name.now + 21 ≤ length out.old }
    ensures end { result ≤ at + length name.now + 21 }
    ensures text { take result out.new ≡ take at out.old ++ line (name.now ++ decimal number) }
{
    let at = put_named(out, at, name, number);
    put(out, at, b"\n")
}
