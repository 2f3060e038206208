ghost use Rattle.std.specs.Prelude.{◌≡◌, ◌≢◌, ℕ, ◌+◌, ◌<◌, ◌≤◌, ◌^◌, true};
ghost use Rattle.growing_runs.specs.Duels.{counted, has_answer, seen, sight_of, with_deed, with_outcome};

use snp_model::{Deed, Event, Outcome};

/// What one of the two of a duel sees when it is asked for its next item.
#[derive(Clone, Copy, Debug, PartialEq, Eq)]
pub struct Sight {
    /// How many items it has answered with so far.
    pub round: u32,
    /// Whether it is the actor of the firmware, and not the processor of the hypervisor.
    pub firmware: bool,
    /// How many frames of 4 KB memory has.
    pub frames: u32,
    /// The guest page number of the last access that any guest's processor came to; 0 before the first.
    pub gpn: u64,
    /// The frame of that access, below `frames`; 0 before the first.
    pub frame: u32,
    /// The outcome of its own last attempt, if it has made one.
    pub last: Option<Outcome>,
}

/// How far a duel has come.
#[derive(Clone, Copy, Debug, PartialEq, Eq)]
pub struct Duel {
    /// How many frames of 4 KB memory has.
    pub frames: u32,
    /// The number of the processor of the hypervisor, from 1.
    pub host: u32,
    /// The number of the actor of the firmware, from 1.
    pub firmware: u32,
    /// How many items each of the two may answer with.
    pub rounds: u32,
    /// How many the processor of the hypervisor has answered with.
    pub by_host: u32,
    /// How many the actor of the firmware has answered with.
    pub by_firmware: u32,
    /// The guest page number of the last access; 0 before the first.
    pub gpn: u64,
    /// The frame of that access; 0 before the first.
    pub frame: u32,
    /// The outcome of the last attempt of the processor of the hypervisor.
    pub last_host: Option<Outcome>,
    /// The outcome of the last attempt of the actor of the firmware.
    pub last_firmware: Option<Outcome>,
}

impl Duel {
    /// Whether one of the two has an answer left.
    pub fn has_answer(&self, actor: u32) -> bool
        ensures { result ≡ has_answer self.now actor }
    {
        let host = actor == self.host && self.by_host < self.rounds;
        let firmware = actor == self.firmware && self.by_firmware < self.rounds;
        host || firmware
    }

    /// What one of the two sees.
    pub fn sight(&self, actor: u32) -> Sight
        ensures { result ≡ sight_of self.now actor }
    {
        if actor == self.firmware {
            Sight {
                round: self.by_firmware,
                firmware: true,
                frames: self.frames,
                gpn: self.gpn,
                frame: self.frame,
                last: self.last_firmware,
            }
        } else {
            Sight {
                round: self.by_host,
                firmware: false,
                frames: self.frames,
                gpn: self.gpn,
                frame: self.frame,
                last: self.last_host,
            }
        }
    }

    /// Counts an answer.
    #[tactic(auto, using(crate::proofs::DuelLaws::by_host_less, crate::proofs::DuelLaws::by_firmware_less))]
    pub fn count(&mut self, actor: u32)
        requires answer { has_answer self.old actor ≡ true }
        requires apart { self.old.host ≢ self.old.firmware }
        ensures { self.new ≡ counted self.old actor }
    {
        if actor == self.firmware {
            self.by_firmware += 1;
        } else {
            self.by_host += 1;
        }
    }

    /// Takes down an event.
    pub fn see(&mut self, actor: u32, event: &Event)
        ensures { self.new ≡ seen actor event.now self.old }
    {
        self.see_deed(&event.deed);
        self.see_outcome(actor, &event.outcome);
    }

    #[tactic(auto, unfolding(crate::specs::Duels::with_deed))]
    fn see_deed(&mut self, deed: &Deed)
        ensures { self.new ≡ with_deed deed.now self.old }
    {
        match deed {
            Deed::Access { gpn, frame, .. } => {
                self.gpn = *gpn;
                self.frame = *frame;
            }
            Deed::Begin
            | Deed::Nested { .. }
            | Deed::Table { .. }
            | Deed::Host { .. }
            | Deed::Lock { .. }
            | Deed::LockContext { .. }
            | Deed::Compute
            | Deed::Commit { .. }
            | Deed::CommitContext { .. }
            | Deed::Control => {}
        }
    }

    #[tactic(auto, unfolding(crate::specs::Duels::with_outcome))]
    fn see_outcome(&mut self, actor: u32, outcome: &Option<Outcome>)
        ensures { self.new ≡ with_outcome actor outcome.now self.old }
    {
        match outcome {
            None => {}
            Some(outcome) => {
                if actor == self.firmware {
                    self.last_firmware = Some(*outcome);
                } else if actor == self.host {
                    self.last_host = Some(*outcome);
                }
            }
        }
    }
}
