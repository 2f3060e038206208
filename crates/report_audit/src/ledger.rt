//! The events of a report so far.
ghost use Rattle.std.specs.Prelude.{◌≡◌, ◌+◌, ◌-◌, ◌<◌, ◌≤◌, ◌^◌, [], length, drop, slice_get, Some, None, Ok, IfOk, MatchOption};
ghost use Rattle.snp_model.specs.Reading.{Valid};
ghost use Rattle.guest_memory.specs.Answers.{IsInRange};
ghost use Rattle.guest_memory.specs.Uses.{use_by};
ghost use Rattle.report_audit.specs.Answers.{Leaves};
ghost use Rattle.report_audit.specs.Audit.{actor_at, hear_event, hear_of, heard_memories, memories_by, memory_by, memories_from, opening_memories};
ghost use Rattle.report_audit.specs.Ending.{runs_with};
ghost use Rattle.report_audit.specs.Kinds.{IsRangeFor};
ghost use Rattle.report_audit.specs.Ledgers.{ledger_of};

use crate::ending::add_run;
use crate::fault::{AuditReason, LineFault};
use crate::kinds::{is_kind, is_opened};
use guest_memory::{ApplyFault, GuestMemory};
use snp_model::{Actor, Event, GuestSpec, Item, Line, Role, Scenario};
use std::alloc::{AllocError, Global};

/// The events so far: how many, whose they are, and what they leave of each guest's memory.
#[derive(Drop)]
pub struct Ledger {
    pub count: u32,
    pub runs: Vec<(u32, u32)>,
    pub memories: Vec<GuestMemory>,
}

// The actor of a number, from 1.
fn actor_at(actors: &[Actor], number: u32) -> Option<&Actor>
    ensures { MatchOption result (actor_at actors.now number ≡ None) (λ actor. actor_at actors.now number ≡ Some actor.now) }
{
    if number == 0 {
        None
    } else {
        actors.get(number as usize - 1)
    }
}

// A guest's memory after an event of one of its processors.
#[tactic(auto, using(crate::proofs::MemoryLaws::made_by, crate::proofs::MemoryLaws::refused_by))]
fn use_memory(memory: &mut GuestMemory, event: &Event, item: &Item) -> Result<(), LineFault>
    requires { IsInRange event.now.deed }
    ensures { Leaves result memory.new (memory_by memory.old (use_by event.now item.now)) }
{
    match memory.apply(event, item) {
        Ok(()) => Ok(()),
        Err(ApplyFault::NotLegal { expected, found }) => {
            Err(LineFault::NotLegal { expected, found })
        }
        Err(ApplyFault::Memory(_)) => Err(LineFault::Memory),
    }
}

// The memories after an event of a processor of a guest.
#[tactic(auto, unfolding(crate::specs::Audit::memories_by))]
fn use_memories(
    memories: &mut Vec<GuestMemory>,
    guest: u8,
    event: &Event,
    item: &Item,
) -> Result<(), LineFault>
    requires some { 0 < guest }
    requires range { IsInRange event.now.deed }
    ensures { Leaves result memories.new.items (memories_by memories.old.items guest (use_by event.now item.now)) }
{
    let place = guest as usize - 1;
    if place < memories.len() {
        use_memory(&mut memories[place], event, item)
    } else {
        Ok(())
    }
}

// The memories after an event of an actor.
#[tactic(auto, unfolding(crate::specs::Audit::heard_memories))]
fn hear_memories(
    memories: &mut Vec<GuestMemory>,
    guests: &[GuestSpec],
    role: &Role,
    event: &Event,
    item: &Item,
) -> Result<(), LineFault>
    requires { IsRangeFor role.now event.now.deed }
    ensures { Leaves result memories.new.items (heard_memories guests.now memories.old.items role.now (use_by event.now item.now)) }
{
    match role {
        Role::Cpu { guest, .. } => {
            if is_opened(guests, *guest) {
                use_memories(memories, *guest, event, item)
            } else {
                Ok(())
            }
        }
        Role::Host => Ok(()),
        Role::Firmware => Ok(()),
    }
}

// The memories of all guests at the opening.
#[tactic(auto, unfolding(crate::specs::Audit::memories_from))]
fn open_memories(alloc: Global, scenario: &Scenario) -> Result<Vec<GuestMemory>, AllocError>
    requires valid { Valid scenario.now }
    requires few { length scenario.now.guests ≤ 8 }
    ensures { IfOk result (λ memories. memories.items ≡ opening_memories scenario.now) }
{
    let mut memories = Vec::new(alloc);
    let mut number: u8 = 1;
    'guests: for _guest in scenario.guests.as_slice() {
        memories.push(GuestMemory::build(alloc, scenario, number)?)?;
        number += 1;
    }
    Ok(memories)
}

impl Ledger {
    /// No event, and the guests' memories as they are then.
    pub fn none(alloc: Global) -> Ledger
        ensures { ledger_of result ≡ record { count = 0; runs = []; memories = [] } }
    {
        Ledger {
            count: 0,
            runs: Vec::new(alloc),
            memories: Vec::new(alloc),
        }
    }

    /// No event, and the memories at the opening.
    pub fn open(alloc: Global, scenario: &Scenario) -> Result<Ledger, AllocError>
        requires valid { Valid scenario.now }
        requires few { length scenario.now.guests ≤ 8 }
        ensures { IfOk result (λ ledger. ledger_of ledger ≡ record { count = 0; runs = []; memories = opening_memories scenario.now }) }
    {
        Ok(Ledger {
            count: 0,
            runs: Vec::new(alloc),
            memories: open_memories(alloc, scenario)?,
        })
    }

    // One more event, of this actor.
    fn add(&mut self, number: u32) -> Result<(), LineFault>
        ensures { Leaves result (ledger_of self.new) (Ok (record { count = self.old.count + 1; runs = runs_with self.old.runs.items number; memories = self.old.memories.items })) }
    {
        if self.count == u32::MAX {
            return Err(LineFault::Memory);
        }
        match add_run(&mut self.runs, number) {
            Ok(()) => {
                self.count += 1;
                Ok(())
            }
            Err(_) => Err(LineFault::Memory),
        }
    }

    // An event of this actor, at a line of its script.
    #[tactic(auto, unfolding(crate::specs::Audit::hear_of))]
    fn hear_of(
        &mut self,
        scenario: &Scenario,
        number: u32,
        actor: &Actor,
        event: &Event,
        line: &Line,
    ) -> Result<(), LineFault>
        ensures { Leaves result (ledger_of self.new) (hear_of scenario.now (ledger_of self.old) number actor.now event.now line.now) }
    {
        let guests = scenario.guests.as_slice();
        if !is_kind(guests, &actor.role, &line.item, event) {
            return Err(LineFault::Refused(AuditReason::Kind));
        }
        hear_memories(&mut self.memories, guests, &actor.role, event, &line.item)?;
        self.add(number)
    }

    /// An event after those so far.
    #[tactic(auto, unfolding(crate::specs::Audit::hear_event))]
    pub fn hear(&mut self, scenario: &Scenario, number: u32, event: &Event) -> Result<(), LineFault>
        ensures { Leaves result (ledger_of self.new) (hear_event scenario.now (ledger_of self.old) number event.now) }
    {
        match actor_at(scenario.actors.as_slice(), number) {
            None => Err(LineFault::Refused(AuditReason::Actor)),
            Some(actor) => match actor.script.as_slice().get(event.item as usize) {
                None => Err(LineFault::Refused(AuditReason::Item)),
                Some(line) => self.hear_of(scenario, number, actor, event, line),
            },
        }
    }
}
