ghost use Rattle.std.specs.Prelude.{◌≡◌, ℕ, ◌*◌, ◌<◌, ◌++◌, ◌∷◌, [], length, IfOk};
ghost use Rattle.std.specs.Bool.{OnTrue, OnFalse};
ghost use Rattle.machine_board.specs.Boards.{board_state};
ghost use Rattle.snp_model.specs.Attempts.{attempts_of};
ghost use Rattle.snp_model.specs.Ending.{guest_line};
ghost use Rattle.snp_model.specs.Journals.{IsRun, idle_event, items_of};
ghost use Rattle.snp_model.specs.Reading.{Valid};
ghost use Rattle.snp_model.specs.State.{IsUnfinished};
ghost use Rattle.snp_model.specs.Step.{Step, after, event_of};

use machine_core::Machine;
use run_journal::Journal;
use snp_model::{Deed, Event, GuestLine, Scenario};
use std::alloc::{AllocError, Global};
use std::marker::Model;

/// A machine, the scenario at whose opening it was built, and the journal of the events since then. The journal has room
/// for all that may follow.
#[derive(Drop)]
pub struct Board {
    scenario: Scenario,
    machine: Machine,
    journal: Journal,
}

impl Model for Board {
    ghost use Rattle.machine_board.specs.Boards.{BoardImage, IsBoard};
    ghost use Rattle.machine_core.specs.Machine.{state_of};

    ghost Value = { BoardImage };

    ghost view = { λ b. record { scenario = b.scenario; list = b.journal.list } };

    ghost invariant = { λ b. IsBoard b.scenario (state_of b.machine) b.journal };
}

impl Board {
    /// The board of a scenario, with no event yet. Takes all memory that any later event needs.
    pub fn build(alloc: Global, scenario: &Scenario) -> Result<Board, AllocError>
        requires { Valid scenario.now }
        ensures { IfOk result (λ board. board ≡ record { scenario = scenario.now; list = [] }) }
    {
        let machine = Machine::build(alloc, scenario)?;
        let journal = Journal::with_room(alloc, 32 * scenario.attempts())?;
        Ok(Board {
            scenario: scenario.copy(alloc)?,
            machine,
            journal,
        })
    }

    /// Makes one event of an actor, numbered from 1, and takes it down. Takes no memory.
    pub fn step(&mut self, actor: u32) -> Event
        requires { IsUnfinished (board_state self.old) actor }
        ensures step { Step (board_state self.old) actor (board_state self.new) result }
        ensures event { result ≡ event_of (board_state self.old) actor }
        ensures after { board_state self.new ≡ after (board_state self.old) actor }
        ensures list { self.new.list ≡ self.old.list ++ (actor, result) ∷ [] }
        ensures scenario { self.new.scenario ≡ self.old.scenario }
    {
        let event = self.machine.step(actor);
        self.journal.push(actor, event);
        event
    }

    /// Whether an actor has passed its last item, or doesn't exist. Each has after 32 events of each attempt.
    pub fn finished(&self, actor: u32) -> bool
        ensures finished { OnTrue result (IsUnfinished (board_state self.now) actor → ⊥) }
        ensures unfinished { OnFalse result (IsUnfinished (board_state self.now) actor) }
        ensures room { OnFalse result (length self.now.list < 32 * attempts_of self.now.scenario) }
    {
        self.machine.finished(actor)
    }

    /// Makes one event of an actor as `step` does, if it is unfinished. Else nothing is changed, and the answer is an event
    /// of no run, at the item after its last.
    pub fn one(&mut self, actor: u32) -> Event
        ensures scenario { self.new.scenario ≡ self.old.scenario }
        ensures stepped { IsUnfinished (board_state self.old) actor → (result ≡ event_of (board_state self.old) actor) × (self.new.list ≡ self.old.list ++ (actor, result) ∷ []) }
        ensures idle { (IsUnfinished (board_state self.old) actor → ⊥) → (result ≡ idle_event self.old.scenario actor) × (self.new ≡ self.old) }
    {
        if self.finished(actor) {
            return Event {
                item: items_of(&self.scenario, actor),
                attempt: 0,
                deed: Deed::Control,
                outcome: None,
            };
        }
        self.step(actor)
    }

    /// The scenario.
    pub fn scenario(&self) -> &Scenario
        ensures scenario { result.now ≡ self.now.scenario }
        ensures valid { Valid self.now.scenario }
    {
        &self.scenario
    }

    /// The events so far.
    pub fn journal(&self) -> &Journal
        ensures list { result.now.list ≡ self.now.list }
        ensures run { IsRun self.now.scenario self.now.list }
    {
        &self.journal
    }

    /// The scenario, and the events so far.
    pub fn into_parts(self) -> (Scenario, Journal)
        ensures scenario { result.0 ≡ self.scenario }
        ensures list { result.1.list ≡ self.list }
        ensures run { IsRun self.scenario self.list }
    {
        (self.scenario, self.journal)
    }

    /// How many guests are declared, at most 255.
    pub fn guests(&self) -> u8
        ensures { result ≡ length (board_state self.now).guests }
    {
        self.machine.guests()
    }

    /// What a report says of a guest, numbered from 1.
    pub fn guest_line(&self, guest: u8) -> GuestLine
        requires { 0 < guest }
        ensures { result ≡ guest_line guest ((board_state self.now).contents.contexts guest) }
    {
        self.machine.guest_line(guest)
    }
}

// How many items an actor has, numbered from 1; 0 for one that doesn't exist.
#[tactic(auto, using(crate::proofs::BoardLaws::items_there, crate::proofs::BoardLaws::items_none, crate::proofs::BoardLaws::items_few))]
fn items_of(scenario: &Scenario, actor: u32) -> u32
    requires { Valid scenario.now }
    ensures { result ≡ items_of scenario.now actor }
{
    if actor == 0 {
        return 0;
    }
    match scenario.actors.as_slice().get(actor as usize - 1) {
        None => 0,
        Some(actor) => actor.script.len() as u32,
    }
}
