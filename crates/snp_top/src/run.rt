//! A run by one worker for each actor, in whatever order their threads come to it, until every actor is finished.
ghost use Rattle.std.specs.Prelude.{◌≡◌, ◌<◌, ◌≤◌, [], length, Some, OnOk, IfOk, vec_capacity};
ghost use Rattle.machine_core.specs.Machine.{state_of};
ghost use Rattle.snp_model.specs.Outside.{Adds, AddsPrefix};
ghost use Rattle.snp_model.specs.Reading.{Valid};
ghost use Rattle.snp_top.specs.Fleets.{ArePasses, IsWhole, KeepsWhole};
ghost use Rattle.snp_top.specs.Runs.{IsKeptRun, OnCut, ReportsKept, RunsOut};

use crate::fault::CommandFault;
use crate::fleet::{Ended, Fleet};
use crate::replay::take_guests;
use cpu_worker::work;
use machine_core::Machine;
use outside_port::{Gate, Sink, Steps};
use report_text::write_report;
use run_journal::Journal;
use snp_model::Scenario;
use std::alloc::{AllocError, Global};
use std::sync::Wait;
use std::thread::{self, Threads};

/// Runs the actors of a scenario to their ends and writes the report; for want of memory nothing is written. Where the scenario
/// has an actor, the report is that of the run which the fleet keeps.
pub fn run<K: Sink, G: Gate + Sync, F: Fleet, R: Threads + Wait + Sync>(
    rt: &R,
    alloc: Global,
    scenario: &Scenario,
    sink: &mut K,
    gate: &G,
    fleet: &mut F,
) -> Result<(), CommandFault>
    requires { Valid scenario.now }
    ensures answer { RunsOut scenario.now (K.written sink.old) (K.written sink.new) (K.faults sink.old) (K.faults sink.new) result }
    ensures fleet_keeps { OnOk result (0 < length scenario.now.actors → ReportsKept scenario.now (F.opening fleet.new) (F.kept fleet.new) (Adds (K.written sink.old) (K.written sink.new))) }
    ensures fleet_cut { OnCut result (0 < length scenario.now.actors → ReportsKept scenario.now (F.opening fleet.new) (F.kept fleet.new) (AddsPrefix (K.written sink.old) (K.written sink.new))) }
    ensures later { K.faults sink.old ≤ K.faults sink.new }
{
    if scenario.actors.is_empty() {
        return match without_actors(alloc, scenario) {
            Ok(ended) => report_ended(scenario, &ended, sink),
            Err(_) => Err(CommandFault::Memory),
        };
    }
    match by_workers(rt, alloc, scenario, gate, fleet) {
        Ok(()) => report_kept(scenario, fleet, sink),
        Err(_) => Err(CommandFault::Memory),
    }
}

// The run of a scenario that has no actor: no event, and its guests as they are at the opening.
fn without_actors(alloc: Global, scenario: &Scenario) -> Result<Ended, AllocError>
    requires valid { Valid scenario.now }
    requires none { length scenario.now.actors ≡ 0 }
    ensures { IfOk result (λ ended. IsWhole scenario.now (record { guests = ended.guests.items; list = ended.journal.list })) }
{
    let machine = Machine::build(alloc, scenario)?;
    let mut guests = Vec::with_capacity(alloc, machine.guests() as usize)?;
    let journal = Journal::with_room(alloc, 0)?;
    take_guests(&machine, &mut guests);
    Ok(Ended { guests, journal })
}

// Builds what the workers step, lets them step it, and has the fleet end the run.
fn by_workers<G: Gate + Sync, F: Fleet, R: Threads + Wait + Sync>(
    rt: &R,
    alloc: Global,
    scenario: &Scenario,
    gate: &G,
    fleet: &mut F,
) -> Result<(), AllocError>
    requires valid { Valid scenario.now }
    requires some { 0 < length scenario.now.actors }
    ensures opening { OnOk result (F.opening fleet.new ≡ Some scenario.now) }
    ensures whole { OnOk result (KeepsWhole (Some scenario.now) (F.kept fleet.new)) }
{
    let (object, mut passes) = fleet.build(alloc, scenario)?;
    work_all(
        rt,
        &object,
        gate,
        passes.as_mut_slice(),
        scenario.actors.len(),
    );
    fleet.end(rt, object, passes)
}

// Lets one worker for each pass step the object, all at once. Where no thread can be made, some go one after the other.
fn work_all<S: Steps + Sync, G: Gate + Sync, R: Threads + Wait + Sync>(
    rt: &R,
    object: &S,
    gate: &G,
    passes: &mut [S::Pass],
    count: usize,
)
    requires some { 0 < count }
    requires passes { ArePasses S.is_of S.actor_of object.now count passes.old }
    ensures { ArePasses S.is_of S.actor_of object.now count passes.new }
{
    thread::for_each_mut(
        rt,
        passes,
        count,
        &|_, pass|
            requires { S.is_of object.now pass.now }
        { work(rt, object, gate, pass) },
    );
}

// Writes the report of the run that a fleet keeps.
fn report_kept<K: Sink, F: Fleet>(
    scenario: &Scenario,
    fleet: &F,
    sink: &mut K,
) -> Result<(), CommandFault>
    requires valid { Valid scenario.now }
    requires opening { F.opening fleet.now ≡ Some scenario.now }
    requires whole { KeepsWhole (Some scenario.now) (F.kept fleet.now) }
    ensures answer { RunsOut scenario.now (K.written sink.old) (K.written sink.new) (K.faults sink.old) (K.faults sink.new) result }
    ensures fleet_keeps { OnOk result (ReportsKept scenario.now (F.opening fleet.now) (F.kept fleet.now) (Adds (K.written sink.old) (K.written sink.new))) }
    ensures fleet_cut { OnCut result (ReportsKept scenario.now (F.opening fleet.now) (F.kept fleet.now) (AddsPrefix (K.written sink.old) (K.written sink.new))) }
    ensures later { K.faults sink.old ≤ K.faults sink.new }
{
    match fleet.ended() {
        Some(ended) => report_ended(scenario, ended, sink),
        None => unreachable!(),
    }
}

// Writes the report of a whole run.
fn report_ended<K: Sink>(
    scenario: &Scenario,
    ended: &Ended,
    sink: &mut K,
) -> Result<(), CommandFault>
    requires valid { Valid scenario.now }
    requires whole { IsWhole scenario.now (record { guests = ended.now.guests.items; list = ended.now.journal.list }) }
    ensures answer { RunsOut scenario.now (K.written sink.old) (K.written sink.new) (K.faults sink.old) (K.faults sink.new) result }
    ensures kept { OnOk result (IsKeptRun scenario.now (record { guests = ended.now.guests.items; list = ended.now.journal.list }) (Adds (K.written sink.old) (K.written sink.new))) }
    ensures cut { OnCut result (IsKeptRun scenario.now (record { guests = ended.now.guests.items; list = ended.now.journal.list }) (AddsPrefix (K.written sink.old) (K.written sink.new))) }
    ensures later { K.faults sink.old ≤ K.faults sink.new }
{
    match write_report(scenario.version, &ended.journal, &ended.guests, sink) {
        Ok(()) => Ok(()),
        Err(_) => Err(CommandFault::Write),
    }
}
