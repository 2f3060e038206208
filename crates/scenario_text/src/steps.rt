ghost use Rattle.std.specs.Prelude.{◌≡◌, ◌+◌, ◌-◌, ◌*◌, ◌^◌, ◌<◌, ◌≤◌, List, [], ◌∷◌, ◌++◌, length, take, drop, slice_get, MatchOption, OnOk, IfOk};
ghost use Rattle.snp_model.specs.Lines.{word};
ghost use Rattle.snp_model.specs.ScenarioLines.{idle, with_line, first_scenario, turns_after, order_row, frames_of};
ghost use Rattle.snp_model.specs.ItemLines.{item_words};
ghost use Rattle.snp_model.specs.Reading.{turns_count, by_rule, within, add_regions, add_guest, add_page, add_word, add_actor, add_line, add_item, add_item_of, add_order};
ghost use Rattle.snp_model.specs.Attempts.{actors_attempts, attempts_of};
ghost use Rattle.scenario_text.specs.Steps.{GivesTurns, Grows};

use crate::draft::Draft;
use crate::fault::LineFault;
use crate::rows::{read_guest, read_page, read_regions, read_turn, read_word};
use crate::taken::Taken;
use script_text::item::read_item_words;
use script_text::words::Words;
use snp_model::{Actor, Line, Listed, Quantity, Reason, Role, Scenario, Turn};
use std::alloc::{AllocError, Global};

// An actor that has no items yet.
fn idle(alloc: Global, role: Role) -> Actor
    ensures { result ≡ idle role }
{
    Actor {
        role,
        script: Listed::new(alloc),
    }
}

// One more item for the last of the actors.
fn push_line(actors: &mut Listed<Actor>, line: Line) -> Result<(), AllocError>
    ensures { MatchOption (slice_get actors.old (length actors.old - 1)) (Unit {0})
        (λ last. OnOk result (actors.new ≡ with_line actors.old line last)) }
{
    match actors.pop() {
        Some(mut last) => {
            last.script.push(line)?;
            actors.push(last)
        }
        None => Ok(()),
    }
}

// The role of the last of the actors.
fn last_role(actors: &[Actor]) -> Option<Role>
    ensures { MatchOption (slice_get actors.now (length actors.now - 1)) (result ≡ None)
        (λ last. result ≡ Some last.role) }
{
    match actors.last() {
        Some(last) => Some(last.role),
        None => None,
    }
}

// The runs of a schedule that stand behind the first word, and how many they are.
#[tactic(auto, unfolding(snp_model::specs::ScenarioLines::order_row, snp_model::specs::ScenarioLines::turns_after))]
fn read_turns(words: &Words<'_>, turns: &mut [Turn; 16]) -> Result<usize, Reason>
    ensures turns { GivesTurns result turns.new (order_row words.now) }
    ensures few { IfOk result (λ count. count ≤ 16) }
{
    let count = words.count();
    for k in 1..count {
        turns[k - 1] = read_turn(words.at(k))?;
    }
    Ok(count - 1)
}

// How many entries runs have.
#[tactic(auto, unfolding(snp_model::specs::Reading::turns_count))]
fn count_turns(turns: &[Turn]) -> u64
    requires { length turns.now ≤ 16 }
    ensures count { result ≡ turns_count turns.now }
    ensures bound { result ≤ 2 ^ 36 }
{
    let mut count: u64 = 0;
    for turn in turns {
        count += u64::from(turn.count);
    }
    count
}

impl Draft {
    /// The scenario of the first line, which says the version.
    #[tactic(auto, unfolding(snp_model::specs::Attempts::actors_attempts, snp_model::specs::Reading::turns_count))]
    pub fn new(alloc: Global, version: u8) -> Draft
        ensures { result.scenario ≡ first_scenario version }
    {
        Draft {
            scenario: Scenario {
                version,
                regions: 0,
                guests: Listed::new(alloc),
                pages: Listed::new(alloc),
                words: Listed::new(alloc),
                actors: Listed::new(alloc),
                order: Listed::new(alloc),
            },
            attempts: 0,
            turns: 0,
            taken: Taken::new(alloc),
        }
    }

    /// `regions N`
    #[tactic(auto, unfolding(snp_model::specs::Reading::add_regions))]
    pub fn add_regions(&mut self, words: &Words<'_>) -> Result<(), LineFault>
        requires { length words.now ≡ 2 }
        ensures { Grows result self.new.scenario (add_regions self.old.scenario words.now) }
    {
        let regions = read_regions(words)?;
        if regions > Quantity::Regions.most() {
            return Err(LineFault::Limit {
                quantity: Quantity::Regions,
                count: regions,
            });
        }
        self.scenario.regions = regions as u32;
        Ok(())
    }

    /// `guest ..`
    #[tactic(auto, unfolding(snp_model::specs::Reading::add_guest))]
    pub fn add_guest(&mut self, words: &Words<'_>) -> Result<(), LineFault>
        requires { length words.now ≡ 9 }
        ensures { Grows result self.new.scenario (add_guest self.old.scenario words.now) }
    {
        let guest = read_guest(&self.scenario, words)?;
        let count = self.scenario.guests.len() as u64 + 1;
        if count > Quantity::Guests.most() {
            return Err(LineFault::Limit {
                quantity: Quantity::Guests,
                count,
            });
        }
        self.scenario.guests.push(guest)?;
        Ok(())
    }

    /// `page ..`
    #[tactic(auto, unfolding(snp_model::specs::Reading::add_page))]
    pub fn add_page(&mut self, alloc: Global, words: &Words<'_>) -> Result<(), LineFault>
        requires { length words.now ≡ 11 }
        ensures { Grows result self.new.scenario (add_page self.old.scenario words.now) }
    {
        let page = read_page(&self.scenario, &self.taken, words)?;
        self.scenario.pages.push(page)?;
        match self.taken.add(&page) {
            Ok(()) => Ok(()),
            Err(_) => {
                self.scenario.pages = Listed::new(alloc);
                self.taken = Taken::new(alloc);
                Err(LineFault::Memory)
            }
        }
    }

    /// `word ..`
    #[tactic(auto, unfolding(snp_model::specs::Reading::add_word))]
    pub fn add_word(&mut self, words: &Words<'_>) -> Result<(), LineFault>
        requires { length words.now ≡ 4 }
        ensures { Grows result self.new.scenario (add_word self.old.scenario words.now) }
    {
        let word = read_word(&self.scenario, words)?;
        self.scenario.words.push(word)?;
        Ok(())
    }

    /// `actor ..`, of which `role` is what its row says.
    #[tactic(auto, unfolding(snp_model::specs::Reading::add_actor))]
    pub fn add_actor(&mut self, alloc: Global, role: Result<Role, Reason>) -> Result<(), LineFault>
        ensures { Grows result self.new.scenario (add_actor self.old.scenario role) }
    {
        let role = role?;
        let count = self.scenario.actors.len() as u64 + 1;
        if count > Quantity::Actors.most() {
            return Err(LineFault::Limit {
                quantity: Quantity::Actors,
                count,
            });
        }
        self.scenario.actors.push(idle(alloc, role))?;
        Ok(())
    }

    /// An item of the last actor.
    #[tactic(auto, using(snp_model::proofs::AttemptLaws::attempts_line), unfolding(snp_model::specs::Reading::add_item, snp_model::specs::Reading::add_line, snp_model::specs::Attempts::attempts_of))]
    pub fn add_item(&mut self, alloc: Global, words: &Words<'_>) -> Result<(), LineFault>
        ensures { Grows result self.new.scenario (add_item self.old.scenario words.now) }
    {
        if !self.scenario.order.is_empty() {
            return Err(LineFault::Refused(Reason::Form));
        }
        let Some(role) = last_role(self.scenario.actors.as_slice()) else {
            return Err(LineFault::Refused(Reason::Form));
        };
        let line = read_item_words(&role, 512 * self.scenario.regions, words)?;
        let attempts = self.attempts + 1 + u32::from(line.retries);
        if u64::from(attempts) > Quantity::Attempts.most() {
            return Err(LineFault::Limit {
                quantity: Quantity::Attempts,
                count: u64::from(attempts),
            });
        }
        match push_line(&mut self.scenario.actors, line) {
            Ok(()) => {
                self.attempts = attempts;
                Ok(())
            }
            Err(_) => {
                self.scenario.actors = Listed::new(alloc);
                self.attempts = 0;
                Err(LineFault::Memory)
            }
        }
    }

    /// `order R..`
    #[tactic(auto, using(snp_model::proofs::AttemptLaws::turns_append), unfolding(snp_model::specs::Reading::add_order))]
    pub fn add_order(&mut self, words: &Words<'_>) -> Result<(), LineFault>
        ensures { Grows result self.new.scenario (add_order self.old.scenario words.now) }
    {
        let mut turns = [Turn { actor: 0, count: 0 }; 16];
        let runs = read_turns(words, &mut turns)?;
        let turns = &turns[..runs];
        let count = u64::from(self.turns) + count_turns(turns);
        if count > Quantity::Order.most() {
            return Err(LineFault::Limit {
                quantity: Quantity::Order,
                count,
            });
        }
        self.scenario.order.extend_from_slice(turns)?;
        self.turns = count as u32;
        Ok(())
    }
}
