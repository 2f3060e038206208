//! A replay, from the bytes of a scenario to what its report says.
ghost use Rattle.std.specs.Prelude.{◌≡◌, ◌+◌, ◌≤◌, [], length, IfOk, IfErr, vec_capacity};
ghost use Rattle.machine_core.specs.Machine.{state_of};
ghost use Rattle.snp_model.specs.Ending.{lines_of};
ghost use Rattle.snp_model.specs.Limits.{most};
ghost use Rattle.snp_model.specs.Reading.{Reads, Valid};
ghost use Rattle.snp_top.specs.Input.{TakesAtMost};
ghost use Rattle.snp_top.specs.Replays.{HasReplayCause, ReadsText, ReplaysTo, RunsTo};
ghost use Rattle.snp_top.specs.Runs.{IsNoTurn};

use crate::fault::CommandFault;
use crate::input::read_text;
use crate::schedule::{empty_journal, play};
use machine_core::Machine;
use outside_port::Source;
use run_journal::Journal;
use scenario_text::read_scenario;
use snp_model::{GuestLine, Quantity, Scenario};
use std::alloc::Global;

/// A scenario that was replayed: its version, its events, and its guests at the end.
#[derive(Drop)]
pub struct Played {
    pub version: u8,
    pub journal: Journal,
    pub guests: Vec<GuestLine>,
}

/// Reads a scenario from a source, and runs its schedule.
pub fn replay<S: Source>(alloc: Global, source: &mut S) -> Result<Played, CommandFault>
    ensures answer { ReplaysTo (S.left source.old) (S.left source.new) (S.faults source.old) (S.faults source.new) result }
    ensures version { IfOk result (λ played. (1 ≤ played.version) × (played.version ≤ 2)) }
    ensures short { IfOk result (λ played. length played.journal.list ≤ 262_144) }
    ensures taken { TakesAtMost (most Quantity.Bytes + 1) (S.left source.old) (S.left source.new) }
    ensures later { S.faults source.old ≤ S.faults source.new }
{
    match read(alloc, source) {
        Ok(scenario) => run(alloc, &scenario),
        Err(fault) => Err(fault),
    }
}

/// Reads the scenario that the text of a source says.
pub fn read<S: Source>(alloc: Global, source: &mut S) -> Result<Scenario, CommandFault>
    ensures said { IfOk result (λ scenario. ReadsText (S.left source.old) (S.left source.new) (λ text. Reads text scenario)) }
    ensures valid { IfOk result Valid }
    ensures cause { IfErr result (HasReplayCause (S.left source.old) (S.left source.new) (S.faults source.old) (S.faults source.new)) }
    ensures no_turn { IfErr result IsNoTurn }
    ensures taken { TakesAtMost (most Quantity.Bytes + 1) (S.left source.old) (S.left source.new) }
    ensures later { S.faults source.old ≤ S.faults source.new }
{
    let text = match read_text(alloc, source) {
        Ok(text) => text,
        Err(fault) => return Err(fault),
    };
    match read_scenario(alloc, text.as_slice()) {
        Ok(scenario) => Ok(scenario),
        Err(fault) => Err(CommandFault::from(fault)),
    }
}

/// Runs the schedule of a scenario. All memory is taken before the first event.
pub fn run(alloc: Global, scenario: &Scenario) -> Result<Played, CommandFault>
    requires { Valid scenario.now }
    ensures answer { RunsTo scenario.now result }
    ensures version { IfOk result (λ played. (1 ≤ played.version) × (played.version ≤ 2)) }
    ensures short { IfOk result (λ played. length played.journal.list ≤ 262_144) }
{
    let mut machine = Machine::build(alloc, scenario)?;
    let mut guests = Vec::with_capacity(alloc, machine.guests() as usize)?;
    let mut journal = empty_journal(alloc, scenario)?;
    match play(&mut machine, &mut journal, scenario.order.as_slice()) {
        Ok(()) => {
            take_guests(&machine, &mut guests);
            Ok(Played {
                version: scenario.version,
                journal,
                guests,
            })
        }
        Err(turn) => Err(CommandFault::Schedule(turn)),
    }
}

// Takes down what is said of each guest.
#[tactic(auto, unfolding(snp_model::specs::Ending::lines_from))]
pub(crate) fn take_guests(machine: &Machine, guests: &mut Vec<GuestLine>)
    requires empty { guests.old.items ≡ [] }
    requires room { length (state_of machine.now).guests ≤ vec_capacity guests.old }
    ensures { guests.new.items ≡ lines_of (state_of machine.now) }
{
    let count = machine.guests();
    'guests: for k in 0..count {
        guests.push_reserved(machine.guest_line(k + 1));
    }
}
