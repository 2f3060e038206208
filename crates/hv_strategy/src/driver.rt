ghost use Rattle.std.specs.Prelude.{◌≡◌, ℕ, ◌+◌, ◌<◌, ◌≤◌, ◌⊎◌, Bool, true, List, [], length, slice_get, Some};
ghost use Rattle.snp_model.specs.declared.event.Event.{Event};
ghost use Rattle.snp_model.specs.declared.item.Item.{Item};
ghost use Rattle.snp_model.specs.declared.scenario.Scenario.{Scenario};
ghost use Rattle.snp_model.specs.Journals.{IsComplete, IsRun, state_at};
ghost use Rattle.snp_model.specs.ScenarioLines.{frames_of};
ghost use Rattle.snp_model.specs.State.{IsUnfinished, part_of};
ghost use Rattle.growing_runs.specs.Extending.{appended};
ghost use Rattle.growing_runs.specs.Drives.{Answered, Driven, IsDeedInside, IsDriven, MayTake, Rules, Turned, Unasked, attempts_with, is_live, live_from, world};

use crate::ring::{Ring, Turns};
use snp_model::{Event, Item};

/// Who answers for actors, and sees what they do.
pub trait Asks {
    // Whether it has an answer for an actor that is finished.
    ghost asks: { Self → ℕ → Bool };

    // It may answer an actor with this item, and is then this.
    ghost gives: { Self → ℕ → Item → Self → Type 0 };

    // An event of an actor at an item makes this of it.
    ghost sees: { Self → ℕ → Item → Event → Self → Type 0 };

    // How many answers it has left at most.
    ghost left: { Self → ℕ };

    // It answers for actors of this scenario.
    ghost suits: { Self → Scenario → Type 0 };

    /// Whether it has an answer for an actor that is finished.
    fn asks(&self, actor: u32) -> bool
        ensures { result ≡ asks self.now actor };

    /// Its answer for an actor.
    fn answer(&mut self, actor: u32) -> Item
        requires asks { asks self.old actor ≡ true }
        requires suits { (c : Scenario) × suits self.old c }
        ensures { gives self.old actor result self.new };

    /// Takes down an event of an actor at an item.
    fn see(&mut self, actor: u32, item: &Item, event: &Event)
        requires suits { (c : Scenario) × suits self.old c }
        ensures { sees self.old actor item.now event.now self.new };

    ghost answers_fit: { (a b : Self) (c : Scenario) (actor : ℕ) (item : Item) → suits a c → asks a actor ≡ true → gives a actor item b → MayTake c actor item };

    ghost answers_suit: { (a b : Self) (c : Scenario) (actor : ℕ) (item : Item) → suits a c → asks a actor ≡ true → gives a actor item b → suits b (appended actor item c) };

    ghost answers_end: { (a b : Self) (c : Scenario) (actor : ℕ) (item : Item) → suits a c → asks a actor ≡ true → gives a actor item b → left b < left a };

    ghost events_suit: { (a b : Self) (c : Scenario) (actor : ℕ) (item : Item) (event : Event) → suits a c → IsDeedInside (frames_of c) event.deed → sees a actor item event b → suits b c };

    ghost events_keep: { (a b : Self) (actor : ℕ) (item : Item) (event : Event) → sees a actor item event b → left b ≤ left a };
}

/// While an actor is live, one of them is picked and makes an event, before which it gets an answer, if it is finished. Takes no
/// memory.
pub fn drive<R: Ring, A: Asks, T: Turns>(ring: &mut R, asker: &mut A, turns: &mut T)
    requires none { R.list ring.old ≡ [] }
    requires suits { A.suits asker.old (R.scenario ring.old) }
    requires room { A.left asker.old ≤ R.spare ring.old }
    ensures driven { Driven (record { asks = A.asks; gives = A.gives; sees = A.sees }) (record { place = T.place; later = T.later }) (world (R.scenario ring.old) (R.list ring.old) asker.old (T.state turns.old)) (world (R.scenario ring.new) (R.list ring.new) asker.new (T.state turns.new)) }
    ensures run { IsRun (R.scenario ring.new) (R.list ring.new) }
    ensures complete { IsComplete (R.scenario ring.new) (R.list ring.new) }
{
    let mut count = count_live(ring, asker);
    'turns: while count != 0 {
        take_turn(ring, asker, turns, count);
        count = count_live(ring, asker);
    }
}

// One turn, where so many actors are live.
fn take_turn<R: Ring, A: Asks, T: Turns>(ring: &mut R, asker: &mut A, turns: &mut T, count: u32)
    requires some { 0 < count }
    requires count { count ≡ length (live_from (A.asks asker.old) 1 (state_at (R.scenario ring.old) (R.list ring.old)).actors) }
    requires driven { IsDriven A.suits A.left (R.scenario ring.old) (R.list ring.old) asker.old (R.spare ring.old) }
    ensures turned { (actor : ℕ) × Turned (record { asks = A.asks; gives = A.gives; sees = A.sees }) (record { place = T.place; later = T.later }) (world (R.scenario ring.old) (R.list ring.old) asker.old (T.state turns.old)) actor (world (R.scenario ring.new) (R.list ring.new) asker.new (T.state turns.new)) }
    ensures driven { IsDriven A.suits A.left (R.scenario ring.new) (R.list ring.new) asker.new (R.spare ring.new) }
    ensures attempts { attempts_with A.left (R.scenario ring.new) asker.new ≤ attempts_with A.left (R.scenario ring.old) asker.old }
    ensures longer { length (R.list ring.new) ≡ length (R.list ring.old) + 1 }
{
    let place = turns.pick(count);
    let actor = live_at(ring, asker, place);
    give_answer(ring, asker, actor);
    let event = ring.step(actor);
    let item = ring.item_of(actor, event.item);
    asker.see(actor, &item, &event);
}

// An actor that is finished gets an answer.
fn give_answer<R: Ring, A: Asks>(ring: &mut R, asker: &mut A, actor: u32)
    requires asks { (IsUnfinished (state_at (R.scenario ring.old) (R.list ring.old)) actor → ⊥) → A.asks asker.old actor ≡ true }
    requires driven { IsDriven A.suits A.left (R.scenario ring.old) (R.list ring.old) asker.old (R.spare ring.old) }
    ensures asked { (turns : List ℕ) → Answered (record { asks = A.asks; gives = A.gives; sees = A.sees }) (world (R.scenario ring.old) (R.list ring.old) asker.old turns) actor (world (R.scenario ring.new) (R.list ring.new) asker.new turns) ⊎ Unasked (world (R.scenario ring.old) (R.list ring.old) asker.old turns) actor (world (R.scenario ring.new) (R.list ring.new) asker.new turns) }
    ensures driven { IsDriven A.suits A.left (R.scenario ring.new) (R.list ring.new) asker.new (R.spare ring.new) }
    ensures attempts { attempts_with A.left (R.scenario ring.new) asker.new ≤ attempts_with A.left (R.scenario ring.old) asker.old }
    ensures list { R.list ring.new ≡ R.list ring.old }
    ensures unfinished { IsUnfinished (state_at (R.scenario ring.new) (R.list ring.new)) actor }
{
    if ring.finished(actor) {
        let item = asker.answer(actor);
        ring.append(actor, item);
    }
}

// Whether an actor is live.
fn is_live<R: Ring, A: Asks>(ring: &R, asker: &A, actor: u32) -> bool
    requires some { 0 < actor }
    requires there { actor ≤ length (state_at (R.scenario ring.now) (R.list ring.now)).actors }
    ensures { result ≡ is_live (A.asks asker.now) actor (part_of (state_at (R.scenario ring.now) (R.list ring.now)) actor) }
{
    let finished = ring.finished(actor);
    let asks = asker.asks(actor);
    !finished || asks
}

// How many actors are live.
fn count_live<R: Ring, A: Asks>(ring: &R, asker: &A) -> u32
    ensures { result ≡ length (live_from (A.asks asker.now) 1 (state_at (R.scenario ring.now) (R.list ring.now)).actors) }
{
    let actors = ring.actors();
    let mut count = 0;
    'actors: for k in 0..actors {
        if is_live(ring, asker, k + 1) {
            count += 1;
        }
    }
    count
}

// The live actor at a place, counted from 0 upwards.
fn live_at<R: Ring, A: Asks>(ring: &R, asker: &A, place: u32) -> u32
    requires { place < length (live_from (A.asks asker.now) 1 (state_at (R.scenario ring.now) (R.list ring.now)).actors) }
    ensures place { slice_get (live_from (A.asks asker.now) 1 (state_at (R.scenario ring.now) (R.list ring.now)).actors) place ≡ Some result }
{
    let actors = ring.actors();
    let mut behind = place;
    'actors: for k in 0..actors {
        if is_live(ring, asker, k + 1) {
            if behind == 0 {
                return k + 1;
            }
            behind -= 1;
        }
    }
    unreachable!()
}
