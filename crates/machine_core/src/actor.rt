ghost use Rattle.std.specs.Prelude.{◌≡◌, ◌++◌, ◌∷◌, [], ◌+◌, ◌<◌, ◌≤◌, ◌^◌, ◌==◌, nat_le, nat_lt, length, map, None, Some, true, IfOk, IsNone, IsSome, is_some};
ghost use Rattle.snp_model.specs.Opening.{opening_part};
ghost use Rattle.snp_model.specs.Step.{line_at, passed_over, tries_again, last_after, part_after};
ghost use Rattle.snp_model.specs.declared.event.Event.{Event};
ghost use Rattle.snp_model.specs.Moves.{Move};
ghost use Rattle.snp_model.specs.State.{View};
ghost use Rattle.snp_model.specs.Walking.{guest_words, nested_words};
ghost use Rattle.snp_model.specs.Bounds.{IsGuestInside};
ghost use Rattle.machine_core.specs.Actors.{IsBegun, computed_of, is_nested_read, page_lock_of};
ghost use Rattle.machine_core.specs.Moves.{context_by, locks_by, move_by, standing_with, takes_page, with_made};
ghost use Rattle.machine_core.specs.Walks.{IsPagingRole, stands_of};

use crate::made_page::MadePage;
use crate::shown::Shown;
use crate::taken_lock::{Taken, TakenLock};
use crate::walk_words::WalkWords;
use crate::walking::{item_stands, no_walk};
use arrayvec::ArrayVec;
use snp_model::{Actor, Deed, Event, GuestEnd, Item, Line, Listed, Outcome, OutcomeClass, Role};
use std::alloc::{AllocError, Global};
use std::marker::Model;

/// An actor: its role, its script and where it stands in it.
#[derive(Drop)]
pub struct ActorState {
    role: Role,
    script: Listed<Line>,
    item: usize,
    attempt: u32,
    deeds: ArrayVec<Deed, 32>,
    words: WalkWords,
    // Where the guest walk of the open attempt stands; before it opens, anywhere.
    stands: GuestEnd,
    // The locks that the open attempt has taken, the oldest first.
    locks: ArrayVec<TakenLock, 3>,
    // The guest whose context it has locked.
    context_lock: Option<u8>,
    // Whether its compute has made a page, which then stands here.
    has_made: bool,
    page: MadePage,
    last: Option<Outcome>,
}

impl Model for ActorState {
    ghost use Rattle.std.specs.Prelude.{map, None};
    ghost use Rattle.snp_model.specs.State.{ActorPart};
    ghost use Rattle.machine_core.specs.Actors.{IsActorState, made_in, page_lock_of};

    ghost Value = { ActorPart };

    ghost view = { λ a. record { role = a.role; script = a.script; item = a.item; attempt = a.attempt; deeds = a.deeds.items; standing = record { locks = map page_lock_of a.locks.items; context_lock = a.context_lock; computed = made_in a.has_made a.page }; last = a.last } };

    ghost invariant = { λ a. IsActorState a.role a.script a.item a.deeds.items a.words.guest.items a.words.nested.items a.stands };
}

impl ActorState {
    /// An actor before its first item.
    pub fn new(alloc: Global, actor: &Actor) -> Result<ActorState, AllocError>
        requires { length actor.now.script < 2 ^ 32 }
        ensures { IfOk result (λ part. part ≡ opening_part actor.now) }
    {
        Ok(ActorState {
            role: actor.role,
            script: Listed::from_slice(alloc, actor.script.as_slice())?,
            item: 0,
            attempt: 0,
            deeds: ArrayVec::new(),
            words: WalkWords::new(),
            stands: no_walk(),
            locks: ArrayVec::new(),
            context_lock: None,
            has_made: false,
            page: MadePage::new(),
            last: None,
        })
    }

    /// What the actor is.
    pub fn role(&self) -> Role
        ensures { result ≡ self.now.role }
    {
        self.role
    }

    /// The deeds of the open attempt.
    pub fn deeds(&self) -> &[Deed]
        ensures { result.now ≡ self.now.deeds }
    {
        self.deeds.as_slice()
    }

    /// The words of guest tables that the open attempt has read.
    pub fn guest_words(&self) -> &[u64]
        ensures { result.now ≡ guest_words self.now.deeds }
    {
        self.words.guest.as_slice()
    }

    /// The words that the nested walk under way has read.
    pub fn nested_words(&self) -> &[u64]
        ensures { result.now ≡ nested_words self.now.deeds }
    {
        self.words.nested.as_slice()
    }

    /// Where the guest walk of the open attempt stands.
    pub fn guest_stands(&self) -> GuestEnd
        ensures stands { IsBegun self.now.deeds → result ≡ stands_of self.now.role (line_at self.now.script self.now.item).item (guest_words self.now.deeds) }
        ensures inside { IsGuestInside result }
    {
        self.stands
    }

    /// Whether the open attempt has taken a lock.
    #[tactic(auto, using(crate::proofs::ActorLaws::as_many_locks))]
    pub fn has_locked(&self) -> bool
        ensures { result ≡ nat_lt 0 (length self.now.standing.locks) }
    {
        !self.locks.is_empty()
    }

    /// How many locks of pages the open attempt has taken, at most 3.
    #[tactic(auto, using(crate::proofs::ActorLaws::as_many_locks))]
    pub fn locks_taken(&self) -> usize
        ensures { result ≡ length self.now.standing.locks }
    {
        self.locks.len()
    }

    /// The locks of pages that the open attempt has taken, the oldest first.
    pub fn locks(&self) -> &[TakenLock]
        ensures { map page_lock_of result.now ≡ self.now.standing.locks }
    {
        self.locks.as_slice()
    }

    /// The guest whose context the open attempt has locked.
    pub fn context_lock(&self) -> Option<u8>
        ensures { result ≡ self.now.standing.context_lock }
    {
        self.context_lock
    }

    /// Whether the compute of the open attempt has made a page.
    #[tactic(auto, using(crate::proofs::ActorLaws::made_some))]
    pub fn has_made(&self) -> bool
        ensures { result ≡ is_some self.now.standing.computed }
    {
        self.has_made
    }

    /// The page that the compute of the open attempt has made.
    #[tactic(auto, using(crate::proofs::ActorLaws::made_there))]
    pub fn made(&self) -> &MadePage
        requires { IsSome self.now.standing.computed }
        ensures { self.now.standing.computed ≡ Some (computed_of result.now) }
    {
        &self.page
    }

    /// The last outcome that isn't of a skip.
    pub fn last(&self) -> Option<Outcome>
        ensures { result ≡ self.now.last }
    {
        self.last
    }

    /// Whether the actor has passed its last item.
    pub fn is_finished(&self) -> bool
        ensures { result ≡ nat_le (length self.now.script) self.now.item }
    {
        self.script.len() <= self.item
    }

    /// The item that the actor is at.
    pub fn item(&self) -> &Item
        requires { self.now.item < length self.now.script }
        ensures { result.now ≡ (line_at self.now.script self.now.item).item }
    {
        &line_at(&self.script, self.item).item
    }

    // The line that the actor is at.
    fn line(&self) -> Line
        requires { self.now.item < length self.now.script }
        ensures { result ≡ line_at self.now.script self.now.item }
    {
        *line_at(&self.script, self.item)
    }

    // One more deed of the open attempt.
    #[inline(always)]
    fn keep(&mut self, deed: Deed)
        requires role { IsPagingRole self.old.role }
        requires unfinished { self.old.item < length self.old.script }
        requires room { length self.old.deeds < 32 }
        ensures { self.new ≡ record self.old { deeds = self.old.deeds ++ deed ∷ [] } }
    {
        let stays = !self.deeds.is_empty() && is_nested_read(&deed);
        self.words.read(&deed);
        self.deeds.push(deed);
        if !stays {
            let line = line_at(&self.script, self.item);
            self.stands = item_stands(&self.role, &line.item, self.words.guest.as_slice());
        }
    }

    // The lock that an event of the open attempt has taken, or this page, if it was made.
    #[tactic(auto, using(crate::proofs::ActorLaws::as_many_locks, crate::proofs::ActorLaws::locks_push))]
    fn take(&mut self, lock: Option<Taken>, page: &MadePage)
        requires { takes_page lock ≡ true → length self.old.standing.locks < 3 }
        ensures { self.new ≡ record self.old { standing = with_made page.now lock self.old.standing } }
    {
        match lock {
            None => {}
            Some(Taken::OfPage(lock)) => self.locks.push(lock),
            Some(Taken::OfContext(guest)) => self.context_lock = Some(guest),
            Some(Taken::Made) => {
                self.page.put(page);
                self.has_made = true;
            }
        }
    }

    /// Takes down what an event shows, and gives the event: a lock that was taken is kept until the attempt ends, and so is
    /// this page, where it was made.
    #[inline(always)]
    #[tactic(auto, unfolding(snp_model::specs::Step::part_after))]
    pub fn take_down(&mut self, shown: &Shown, page: &MadePage) -> Event
        requires role { IsPagingRole self.old.role }
        requires unfinished { self.old.item < length self.old.script }
        requires room { IsNone shown.now.outcome → length self.old.deeds < 32 }
        requires lock_room { takes_page shown.now.lock ≡ true → length self.old.standing.locks < 3 }
        ensures event { result ≡ record { item = self.old.item; attempt = self.old.attempt; deed = shown.now.deed; outcome = shown.now.outcome } }
        ensures part { (after : View) → self.new ≡ part_after self.old (move_by shown.now after (standing_with page.now shown.now self.old.standing)) shown.now.outcome }
        ensures locks { self.new.standing.locks ≡ locks_by shown.now self.old.standing }
        ensures context { self.new.standing.context_lock ≡ context_by shown.now self.old.standing }
    {
        let item = self.item as u32;
        let attempt = self.attempt;
        let deed = shown.deed;
        match &shown.outcome {
            None => {
                self.keep(deed);
                self.take(shown.lock, page);
                Event {
                    item,
                    attempt,
                    deed,
                    outcome: None,
                }
            }
            Some(outcome) => {
                self.end(outcome);
                Event {
                    item,
                    attempt,
                    deed,
                    outcome: Some(*outcome),
                }
            }
        }
    }

    // The end of the open attempt by an outcome: its item is passed or tried again, and what it had taken is let go.
    #[tactic(auto, unfolding(snp_model::specs::Step::part_after, snp_model::specs::Step::position_after))]
    fn end(&mut self, outcome: &Outcome)
        requires unfinished { self.old.item < length self.old.script }
        ensures part { (move : Move) → self.new ≡ part_after self.old move (Some outcome.now) }
        ensures locks { self.new.standing.locks ≡ [] }
        ensures context { self.new.standing.context_lock ≡ None }
    {
        let line = self.line();
        if tries_again(&line, self.attempt, outcome) {
            self.attempt += 1;
        } else {
            self.item += 1 + passed_over(outcome) as usize;
            self.attempt = 0;
        }
        self.deeds.clear();
        self.words.clear();
        self.locks.clear();
        self.context_lock = None;
        self.has_made = false;
        self.last = last_after(self.last, *outcome);
    }
}

// The line at a place of a script.
fn line_at(script: &Listed<Line>, item: usize) -> &Line
    requires { item < length script.now }
    ensures { result.now ≡ line_at script.now item }
{
    &script.as_slice()[item]
}

// Whether a deed reads a word of a nested table, which leaves the guest walk where it stands.
fn is_nested_read(deed: &Deed) -> bool
    ensures { result ≡ is_nested_read deed.now }
{
    match deed {
        Deed::Nested { .. } => true,
        Deed::Begin
        | Deed::Table { .. }
        | Deed::Access { .. }
        | Deed::Host { .. }
        | Deed::Lock { .. }
        | Deed::LockContext { .. }
        | Deed::Compute
        | Deed::Commit { .. }
        | Deed::CommitContext { .. }
        | Deed::Control => false,
    }
}

// Whether an item is attempted again after an outcome.
fn tries_again(line: &Line, attempt: u32, outcome: &Outcome) -> bool
    ensures { result ≡ tries_again line.now attempt outcome.now }
{
    outcome.is_in_use() && attempt < u32::from(line.retries)
}

// How many items are passed over after an outcome.
#[tactic(auto, using(crate::proofs::ActorLaws::passes_none))]
fn passed_over(outcome: &Outcome) -> u32
    ensures { result ≡ passed_over outcome.now }
{
    match outcome {
        Outcome::Skipped(count) => *count,
        _ => 0,
    }
}

// The last outcome that isn't of a skip.
fn last_after(last: Option<Outcome>, outcome: Outcome) -> Option<Outcome>
    ensures { result ≡ last_after last outcome }
{
    match outcome.class() {
        OutcomeClass::Good => Some(outcome),
        OutcomeClass::Bad => Some(outcome),
        OutcomeClass::InUse => Some(outcome),
        OutcomeClass::Skip => last,
    }
}
