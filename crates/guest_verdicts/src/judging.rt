//! A memory for each guest, which sees the events of a run.
ghost use Rattle.std.specs.Prelude.{◌↔◌, IsTrue};
ghost use Rattle.guest_memory.specs.Answers.{IsInRange};
ghost use Rattle.snp_model.specs.Reading.{Valid};

use guest_memory::{ApplyFault, GuestMemory};
use snp_model::{Command, Deed, Event, Item, Outcome, PageSize, Role, Scenario};
use snp_top::replay::Played;
use std::alloc::{AllocError, Global};

/// What a memory of its own says of a guest's private accesses in a run.
#[derive(Clone, Copy, Debug, PartialEq, Eq)]
pub enum Verdict {
    /// Each is legal.
    Legal,
    /// This event, from 0, validates or launches a page that the guest holds, and nothing is said of those behind it. Each access
    /// before it is legal.
    Undisciplined { event: usize },
    /// That of this event, from 0, isn't legal.
    NotLegal { event: usize },
}

/// A guest, and what it may rely on.
#[derive(Drop)]
pub struct Watched {
    /// The guest, numbered from 1.
    pub guest: u8,
    /// How many events of its processors were legal.
    pub events: u64,
    /// What is said so far.
    pub verdict: Verdict,
    memory: GuestMemory,
}

/// What is said of each guest of a scenario that was replayed. The words of a page that is launched count as unknown.
pub fn judge(
    alloc: Global,
    scenario: &Scenario,
    played: &Played,
) -> Result<Vec<Watched>, AllocError>
    requires { Valid scenario.now }
{
    let mut guests = Vec::new(alloc);
    for line in played.guests.iter() {
        guests.push(Watched {
            guest: line.guest,
            events: 0,
            verdict: Verdict::Legal,
            memory: GuestMemory::build(alloc, scenario, line.guest)?,
        })?;
    }
    for k in 0..played.journal.len() {
        let (actor, event) = played.journal.get(k);
        if let Some((role, item)) = maker(scenario, actor, event.item) {
            show(&mut guests, k, role, &event, &item)?;
        }
    }
    Ok(guests)
}

// The role of an actor, numbered from 1, and one of its items, from 0.
fn maker(scenario: &Scenario, actor: u32, item: u32) -> Option<(Role, Item)> {
    let place = (actor as usize).checked_sub(1)?;
    let actor = scenario.actors.as_slice().get(place)?;
    let line = actor.script.as_slice().get(item as usize)?;
    Some((actor.role, line.item))
}

// Shows an event to each guest.
fn show(
    guests: &mut Vec<Watched>,
    number: usize,
    role: Role,
    event: &Event,
    item: &Item,
) -> Result<(), AllocError> {
    for watched in guests.iter_mut() {
        if watched.verdict == Verdict::Legal {
            watched.see(number, role, event, item)?;
        }
    }
    Ok(())
}

impl Watched {
    // Sees an event, which concerns the guest if a processor of its own made it, or if firmware launched a page for it.
    fn see(
        &mut self,
        number: usize,
        role: Role,
        event: &Event,
        item: &Item,
    ) -> Result<(), AllocError> {
        match role {
            Role::Cpu { guest, .. } => {
                if guest == self.guest {
                    self.events = self.events.saturating_add(1);
                    self.apply(number, event, item)?;
                }
            }
            Role::Firmware => {
                if let Some(gpn) = launched_page(self.guest, event, item) {
                    self.apply(number, &accepted(gpn), &ACCEPTANCE)?;
                }
            }
            Role::Host => {}
        }
        Ok(())
    }

    // Applies an event of the guest's.
    fn apply(&mut self, number: usize, event: &Event, item: &Item) -> Result<(), AllocError> {
        if !is_in_range(&event.deed) {
            self.verdict = Verdict::NotLegal { event: number };
            return Ok(());
        }
        if self.accepts_what_it_holds(event, item) {
            self.verdict = Verdict::Undisciplined { event: number };
            return Ok(());
        }
        match self.memory.apply(event, item) {
            Ok(()) => Ok(()),
            Err(ApplyFault::NotLegal { .. }) => {
                self.verdict = Verdict::NotLegal { event: number };
                Ok(())
            }
            Err(ApplyFault::Memory(error)) => Err(error),
        }
    }

    // Whether an event validates a page that the guest holds, whatever its carry flag.
    fn accepts_what_it_holds(&self, event: &Event, item: &Item) -> bool {
        let (Deed::Commit { gpn, size, .. }, Item::Pvalidate { validate, .. }) = (event.deed, item)
        else {
            return false;
        };
        if !*validate || !matches!(event.outcome, Some(Outcome::Carry(_))) {
            return false;
        }
        let pages = gpn..gpn.saturating_add(u64::from(size.frames()));
        for page in pages {
            if self.memory.held(page) {
                return true;
            }
        }
        false
    }
}

const ACCEPTANCE: Item = Item::Pvalidate {
    address: 0,
    size: PageSize::Small,
    validate: true,
};

// The event that accepts a page of which no word is known.
fn accepted(gpn: u64) -> Event {
    Event {
        item: 0,
        attempt: 0,
        deed: Deed::Commit {
            frame: 0,
            gpn,
            size: PageSize::Small,
        },
        outcome: Some(Outcome::Carry(false)),
    }
}

// The page that an event of firmware launches for a guest.
fn launched_page(guest: u8, event: &Event, item: &Item) -> Option<u64> {
    match (event.deed, item, event.outcome) {
        (
            Deed::Commit { gpn, .. },
            Item::Firmware(Command::LaunchUpdate { guest: owner, .. }),
            Some(Outcome::Firmware(0)),
        ) => { if *owner == guest { Some(gpn) } else { None } }
        _ => None,
    }
}

// Whether the numbers of a deed are in range.
fn is_in_range(deed: &Deed) -> bool
    ensures { IsTrue result ↔ IsInRange deed.now }
{
    match deed {
        Deed::Table { gpn, index, .. } => *gpn < 1 << 36 && *index < 512,
        Deed::Access { gpn, index, .. } => *gpn < 1 << 36 && *index < 512,
        Deed::Commit { gpn, .. } => *gpn < 1 << 36,
        Deed::Begin
        | Deed::Nested { .. }
        | Deed::Host { .. }
        | Deed::Lock { .. }
        | Deed::LockContext { .. }
        | Deed::Compute
        | Deed::CommitContext { .. }
        | Deed::Control => true,
    }
}
