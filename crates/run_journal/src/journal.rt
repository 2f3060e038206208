ghost use Rattle.std.specs.Prelude.{◌≡◌, ◌<◌, ◌≤◌, ◌^◌, ◌-◌, ◌==◌, [], ◌∷◌, ◌++◌, length, slice_get, vec_capacity, IfOk, Some};
ghost use Rattle.snp_model.specs.Journal.{actors_of};
ghost use Rattle.run_journal.specs.Outcomes.{outcomes_of};
ghost use Rattle.run_journal.specs.Shorts.{Keeps, outcome_at, whole_event};

use crate::short::{Mark, Short};
use snp_model::{Event, Outcome};
use std::alloc::{AllocError, Global};
use std::marker::Model;

/// The events of a run with their actors, the oldest first. It has its memory from the start. Outcomes are much
/// larger than the rest of an event, and most events have none, so they are kept apart. Actors are kept apart since the
/// order of a report needs nothing else of an event, and outcomes' places beside them, so that no memory is padding.
#[derive(Debug, Drop)]
pub struct Journal {
    marks: Vec<Mark>,
    events: Vec<Short>,
    outcomes: Vec<Outcome>,
}

/// What a journal keeps of an event.
#[derive(Clone, Copy, Debug)]
pub struct Kept {
    /// Whose event it is.
    pub actor: u32,
    /// The event without its outcome.
    pub event: Short,
    /// The outcome, or none where the event ended no attempt.
    pub outcome: Option<Outcome>,
}

impl Model for Journal {
    ghost use Rattle.std.specs.Prelude.{vec_capacity};
    ghost use Rattle.snp_model.specs.Journal.{JournalImage};
    ghost use Rattle.run_journal.specs.Shorts.{entries_of, AreShorts};

    ghost Value = { JournalImage };

    ghost view = { λ j. record { list = entries_of j.outcomes.items j.marks.items j.events.items; room = vec_capacity j.events } };

    ghost invariant = { λ j. AreShorts j.marks.items (vec_capacity j.marks) j.events.items (vec_capacity j.events) j.outcomes.items (vec_capacity j.outcomes) };
}

impl Journal {
    /// An empty journal with room for so many events.
    #[tactic(auto, using(crate::proofs::ShortLaws::shorts_none))]
    pub fn with_room(alloc: Global, room: usize) -> Result<Journal, AllocError>
        ensures { IfOk result (λ journal. journal ≡ record { list = []; room = room }) }
    {
        if room > 0xffff_ffff {
            return Err(AllocError);
        }
        let marks = Vec::with_capacity(alloc, room)?;
        let events = Vec::with_capacity(alloc, room)?;
        let outcomes = Vec::with_capacity(alloc, room)?;
        Ok(Journal {
            marks,
            events,
            outcomes,
        })
    }

    /// Adds an event of an actor. Takes no memory.
    #[tactic(auto, using(crate::proofs::ShortLaws::length_entries))]
    pub fn push(&mut self, actor: u32, event: Event)
        requires { length self.old.list < self.old.room }
        ensures list { self.new.list ≡ self.old.list ++ (actor, event) ∷ [] }
        ensures room { self.new.room ≡ self.old.room }
    {
        let end = keep_outcome(&mut self.outcomes, &event.outcome);
        self.marks.push_reserved(Mark { actor, end });
        self.events.push_reserved(Short::from_event(&event));
    }

    /// How many events there are.
    #[tactic(auto, using(crate::proofs::ShortLaws::length_entries))]
    pub fn len(&self) -> usize
        ensures { result ≡ length self.now.list }
    {
        self.events.len()
    }

    /// Whether there is no event.
    pub fn is_empty(&self) -> bool
        ensures { result ≡ (length self.now.list == 0) }
    {
        self.len() == 0
    }

    /// Event k, from 0, and its actor.
    pub fn get(&self, k: usize) -> (u32, Event)
        requires { k < length self.now.list }
        ensures { slice_get self.now.list k ≡ Some result }
    {
        let kept = self.kept(k);
        (kept.actor, kept.event.whole(kept.outcome))
    }

    /// What is kept of event k, from 0.
    #[inline(always)]
    #[tactic(auto, using(crate::proofs::ShortLaws::length_entries, crate::proofs::ShortLaws::within_at, crate::proofs::ShortLaws::entry_at))]
    pub fn kept(&self, k: usize) -> Kept
        requires { k < length self.now.list }
        ensures { slice_get self.now.list k ≡ Some (result.actor, whole_event result.event result.outcome) }
    {
        let mark = self.marks[k];
        Kept {
            actor: mark.actor,
            event: self.events[k],
            outcome: outcome_at(&self.outcomes, mark.end),
        }
    }

    /// The outcome of event k, from 0, or none where it ended no attempt.
    #[tactic(auto, using(crate::proofs::ShortLaws::length_entries, crate::proofs::ShortLaws::within_at, crate::proofs::ShortLaws::outcome_found))]
    pub fn outcome(&self, k: usize) -> Option<Outcome>
        requires { k < length self.now.list }
        ensures { slice_get (outcomes_of self.now.list) k ≡ Some result }
    {
        outcome_at(&self.outcomes, self.marks[k].end)
    }

    /// The actor of event k, from 0.
    #[tactic(auto, using(crate::proofs::ShortLaws::length_entries, crate::proofs::ShortLaws::actor_at))]
    pub fn actor(&self, k: usize) -> u32
        requires { k < length self.now.list }
        ensures { slice_get (actors_of self.now.list) k ≡ Some result }
    {
        self.marks[k].actor
    }
}

// Keeps an outcome, if there is one, and gives the place after it.
#[tactic(auto, using(crate::proofs::ShortLaws::keeps_none, crate::proofs::ShortLaws::keeps_some))]
fn keep_outcome(outcomes: &mut Vec<Outcome>, outcome: &Option<Outcome>) -> u32
    requires room { length outcomes.old.items < vec_capacity outcomes.old }
    requires few { length outcomes.old.items < 2 ^ 32 - 1 }
    ensures kept { Keeps outcomes.old.items outcomes.new.items outcome.now result }
    ensures capacity { vec_capacity outcomes.new ≡ vec_capacity outcomes.old }
{
    match outcome {
        None => 0,
        Some(outcome) => {
            outcomes.push_reserved(*outcome);
            outcomes.len() as u32
        }
    }
}

// The outcome before a place, if the place isn't 0.
#[inline(always)]
fn outcome_at(outcomes: &Vec<Outcome>, end: u32) -> Option<Outcome>
    requires { end ≤ length outcomes.now.items }
    ensures { result ≡ outcome_at outcomes.now.items end }
{
    if end == 0 {
        None
    } else {
        Some(outcomes[end as usize - 1])
    }
}
