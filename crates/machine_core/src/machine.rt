ghost use Rattle.std.specs.Prelude.{◌≡◌, ℕ, ◌<◌, ◌≤◌, length, IfOk};
ghost use Rattle.snp_model.specs.Ending.{guest_line};
ghost use Rattle.snp_model.specs.Locks.{context_holder_of};
ghost use Rattle.snp_model.specs.Opening.{opening};
ghost use Rattle.snp_model.specs.Reading.{Valid};
ghost use Rattle.std.specs.Bool.{OnTrue, OnFalse};
ghost use Rattle.snp_model.specs.State.{IsUnfinished};
ghost use Rattle.snp_model.specs.Step.{Step, event_of, after};
ghost use Rattle.machine_core.specs.Machine.{state_of};

use crate::actor::ActorState;
use crate::building::{free_parts, make_actors, set_pages, set_words};
use crate::event::advance;
use crate::made_page::MadePage;
use crate::parts::{OwnParts, Parts};
use crate::shown::Shown;
use guest_context::GuestContext;
use snp_model::{Event, GuestLine, GuestSpec, GuestState, Listed, Scenario};
use std::alloc::{AllocError, Global};
use std::marker::Model;

/// A machine: the regions of its memory, its guests, and its actors with their scripts. Contracts see the flat state that
/// it is in by `state_of`.
#[derive(Drop)]
pub struct Machine {
    parts: OwnParts,
    guests: Listed<GuestSpec>,
    actors: Vec<ActorState>,
    // What the last event showed: a place for the next.
    shown: Shown,
    // A place for one page, for an event that makes a page.
    page: MadePage,
}

impl Model for Machine {
    ghost use Rattle.machine_core.specs.Machine.{MachineImage, IsMachine};

    ghost Value = { MachineImage };

    ghost view = { λ m. record { bays = m.parts.bays.items; contexts = m.parts.contexts.items; guests = m.guests; actors = m.actors.items } };

    ghost invariant = { λ m. IsMachine (record { bays = m.parts.bays.items; contexts = m.parts.contexts.items; guests = m.guests; actors = m.actors.items }) };
}

impl Machine {
    /// The machine at the opening of a scenario. Takes all memory that any later event needs.
    pub fn build(alloc: Global, scenario: &Scenario) -> Result<Machine, AllocError>
        requires { Valid scenario.now }
        ensures { IfOk result (λ m. state_of m ≡ opening scenario.now) }
    {
        let guests = scenario.guests.as_slice();
        let mut parts = free_parts(alloc, scenario.regions, guests)?;
        set_pages(&mut parts, guests, scenario.pages.as_slice());
        set_words(&mut parts, scenario.words.as_slice());
        let actors = make_actors(alloc, scenario.actors.as_slice())?;
        let guests = Listed::from_slice(alloc, guests)?;
        Ok(Machine {
            parts,
            guests,
            actors,
            shown: Shown::faulted(),
            page: MadePage::new(),
        })
    }

    /// Makes one event of an actor, numbered from 1: the step of the tables, of which there is exactly one.
    /// Takes no memory.
    // It is inlined so that its event, which is large, goes straight to where its caller keeps it.
    #[inline(always)]
    pub fn step(&mut self, actor: u32) -> Event
        requires { IsUnfinished (state_of self.old) actor }
        ensures step { Step (state_of self.old) actor (state_of self.new) result }
        ensures event { result ≡ event_of (state_of self.old) actor }
        ensures after { state_of self.new ≡ after (state_of self.old) actor }
    {
        let frames = 512 * self.parts.bays.len() as u32;
        let state = &mut self.actors[actor as usize - 1];
        advance(
            state,
            actor,
            frames,
            self.guests.as_slice(),
            &mut self.parts,
            &mut self.page,
            &mut self.shown,
        )
    }

    /// Whether an actor has passed its last item, or doesn't exist.
    pub fn finished(&self, actor: u32) -> bool
        ensures finished { OnTrue result (IsUnfinished (state_of self.now) actor → ⊥) }
        ensures unfinished { OnFalse result (IsUnfinished (state_of self.now) actor) }
    {
        if actor == 0 {
            return true;
        }
        match self.actors.get(actor as usize - 1) {
            None => true,
            Some(state) => state.is_finished(),
        }
    }

    /// Whether every actor has passed its last item.
    pub fn all_finished(&self) -> bool
        ensures finished { OnTrue result ((actor : ℕ) → IsUnfinished (state_of self.now) actor → ⊥) }
        ensures unfinished { OnFalse result ((actor : ℕ) × IsUnfinished (state_of self.now) actor) }
    {
        let count = self.actors.len() as u32;
        'actors: for actor in 1..=count {
            if !self.finished(actor) {
                return false;
            }
        }
        true
    }

    /// How many guests are declared, at most 255.
    pub fn guests(&self) -> u8
        ensures { result ≡ length (state_of self.now).guests }
    {
        self.guests.len() as u8
    }

    /// The context of a declared guest, numbered from 1, with its lock.
    pub fn context(&self, guest: u8) -> &GuestContext
        requires some { 0 < guest }
        requires declared { guest ≤ length (state_of self.now).guests }
        ensures context { result.now.context ≡ (state_of self.now).contents.contexts guest }
        ensures holder { result.now.holder ≡ context_holder_of (state_of self.now) guest }
    {
        self.parts.context(guest)
    }

    /// What a report says of a guest, numbered from 1: of one that isn't declared, that it has no context.
    #[tactic(auto, unfolding(snp_model::specs::Opening::opening_context))]
    pub fn guest_line(&self, guest: u8) -> GuestLine
        requires { 0 < guest }
        ensures { result ≡ guest_line guest ((state_of self.now).contents.contexts guest) }
    {
        if self.guests.len() < guest as usize {
            return GuestLine {
                guest,
                state: GuestState::Absent,
                pages: 0,
                digest: [0; 48],
            };
        }
        let context = self.context(guest);
        GuestLine {
            guest,
            state: context.state,
            pages: context.pages,
            digest: context.digest.bytes(),
        }
    }
}
