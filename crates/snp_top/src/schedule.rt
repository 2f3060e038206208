//! The schedule of a replay.
ghost use Rattle.std.specs.Prelude.{◌≡◌, ◌*◌, ◌<◌, ◌≤◌, [], replicate, take, IfOk, IfErr, OnOk};
ghost use Rattle.machine_core.specs.Machine.{state_of};
ghost use Rattle.snp_model.specs.Attempts.{actors_attempts, attempts_of, script_attempts};
ghost use Rattle.snp_model.specs.Reading.{Valid, turns_spell};
ghost use Rattle.snp_model.specs.State.{IsUnfinished};
ghost use Rattle.snp_top.specs.Schedule.{AtOpening, IsFirstBad, IsUnderWay, Plays, PlaysOn};

use machine_core::Machine;
use run_journal::Journal;
use snp_model::{Actor, Line, Scenario, Turn};
use std::alloc::{AllocError, Global};

/// An entry of a schedule, counted from 0, that names an actor which is missing or finished.
#[derive(Clone, Copy, Debug, PartialEq, Eq)]
pub struct BadTurn {
    /// The entry.
    pub entry: u32,
    /// The actor that it names.
    pub actor: u32,
}

/// The journal in which a schedule of a scenario is played: empty, with room for 32 events of each attempt.
pub fn empty_journal(alloc: Global, scenario: &Scenario) -> Result<Journal, AllocError>
    requires { Valid scenario.now }
    ensures { IfOk result (λ journal. journal ≡ record { list = []; room = 32 * attempts_of scenario.now }) }
{
    let attempts = count_attempts(scenario.actors.as_slice());
    Journal::with_room(alloc, 32 * attempts)
}

// How many attempts the actors have at most.
#[tactic(auto, unfolding(snp_model::specs::Attempts::actors_attempts))]
fn count_attempts(actors: &[Actor]) -> usize
    requires { actors_attempts actors.now ≤ 8192 }
    ensures { result ≡ actors_attempts actors.now }
{
    let mut count = 0;
    'actors: for actor in actors {
        count += count_script(actor.script.as_slice());
    }
    count
}

// How many attempts a script has at most.
#[tactic(auto, unfolding(snp_model::specs::Attempts::script_attempts))]
fn count_script(script: &[Line]) -> usize
    requires { script_attempts script.now ≤ 8192 }
    ensures { result ≡ script_attempts script.now }
{
    let mut count = 0;
    'lines: for line in script {
        count += 1 + line.retries as usize;
    }
    count
}

/// Runs a schedule, and takes down its events. The machine is as `Machine::build` gave it, and the journal is empty,
/// with room for 32 events of each attempt. Takes no memory.
pub fn play(machine: &mut Machine, journal: &mut Journal, order: &[Turn]) -> Result<(), BadTurn>
    requires { AtOpening (state_of machine.old) journal.old }

    // The whole schedule makes a run, which is what the journal then has.
    ensures played { OnOk result (Plays (state_of machine.old) (turns_spell order.now) journal.new (state_of machine.new)) }

    // Or it has an entry that names a missing or finished actor: the run of the entries before the first one was made.
    ensures bad { IfErr result (λ turn. IsFirstBad (state_of machine.old) (turns_spell order.now) turn.entry turn.actor) }
    ensures stopped { IfErr result (λ turn. Plays (state_of machine.old) (take turn.entry (turns_spell order.now)) journal.new (state_of machine.new)) }

    ensures room { journal.new.room ≡ journal.old.room }
{
    let mut entry = 0;
    'turns: for turn in order {
        match take_turn(machine, journal, turn) {
            Ok(()) => entry += turn.count,
            Err(made) => {
                return Err(BadTurn {
                    entry: entry + made,
                    actor: turn.actor,
                });
            }
        }
    }
    Ok(())
}

// Makes the events of one turn, or as many as its actor has; then it tells how many those were.
fn take_turn(machine: &mut Machine, journal: &mut Journal, turn: &Turn) -> Result<(), u32>
    requires { IsUnderWay (state_of machine.old) journal.old }
    ensures played { OnOk result (PlaysOn (state_of machine.old) (replicate turn.now.count turn.now.actor) journal.old journal.new (state_of machine.new)) }
    ensures few { IfErr result (λ made. made < turn.now.count) }
    ensures front { IfErr result (λ made. PlaysOn (state_of machine.old) (replicate made turn.now.actor) journal.old journal.new (state_of machine.new)) }
    ensures bad { IfErr result (λ made. IsUnfinished (state_of machine.new) turn.now.actor → ⊥) }
{
    'events: for made in 0..turn.count {
        if machine.finished(turn.actor) {
            return Err(made);
        }
        let event = machine.step(turn.actor);
        journal.push(turn.actor, event);
    }
    Ok(())
}
