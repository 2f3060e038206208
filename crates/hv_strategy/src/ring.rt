ghost use Rattle.std.specs.Prelude.{◌≡◌, ℕ, ◌+◌, ◌*◌, ◌<◌, ◌++◌, ◌∷◌, List, [], length};
ghost use Rattle.std.specs.Bool.{OnTrue, OnFalse};
ghost use Rattle.snp_model.specs.declared.event.Event.{Event};
ghost use Rattle.snp_model.specs.declared.scenario.Scenario.{Scenario};
ghost use Rattle.snp_model.specs.Journals.{IsRun, state_at};
ghost use Rattle.snp_model.specs.Reading.{Valid};
ghost use Rattle.snp_model.specs.ScenarioLines.{frames_of};
ghost use Rattle.snp_model.specs.State.{IsUnfinished};
ghost use Rattle.snp_model.specs.Step.{event_of, line_at};
ghost use Rattle.growing_runs.specs.Extending.{actor_of, appended};
ghost use Rattle.growing_runs.specs.Drives.{IsDeedInside, MayTake};

use snp_model::{Event, Item};

/// A scenario with its run so far, whose scripts can go on.
pub trait Ring {
    // The scenario.
    ghost scenario: { Self → Scenario };

    // The events so far.
    ghost list: { Self → List (ℕ × Event) };

    // How many items there is room for.
    ghost spare: { Self → ℕ };

    /// How many frames memory has.
    fn frames(&self) -> u32
        ensures frames { result ≡ 512 * (scenario self.now).regions }
        ensures valid { Valid (scenario self.now) }
        ensures run { IsRun (scenario self.now) (list self.now) };

    /// How many actors there are.
    fn actors(&self) -> u32
        ensures actors { result ≡ length (scenario self.now).actors };

    /// Whether an actor has passed its last item, or doesn't exist.
    fn finished(&self, actor: u32) -> bool
        ensures finished { OnTrue result (IsUnfinished (state_at (scenario self.now) (list self.now)) actor → ⊥) }
        ensures unfinished { OnFalse result (IsUnfinished (state_at (scenario self.now) (list self.now)) actor) };

    /// An item of an actor.
    fn item_of(&self, actor: u32, item: u32) -> Item
        requires some { 0 < actor }
        requires there { item < length (actor_of (scenario self.now) actor).script }
        ensures { result ≡ (line_at (actor_of (scenario self.now) actor).script item).item };

    /// Lets the script of a finished actor go on. Takes no memory.
    fn append(&mut self, actor: u32, item: Item)
        requires may { MayTake (scenario self.old) actor item }
        requires finished { IsUnfinished (state_at (scenario self.old) (list self.old)) actor → ⊥ }
        requires room { 0 < spare self.old }
        ensures scenario { scenario self.new ≡ appended actor item (scenario self.old) }
        ensures list { list self.new ≡ list self.old }
        ensures spare { spare self.new + 1 ≡ spare self.old }
        ensures unfinished { IsUnfinished (state_at (scenario self.new) (list self.new)) actor };

    /// Makes one event of an actor. Takes no memory.
    fn step(&mut self, actor: u32) -> Event
        requires { IsUnfinished (state_at (scenario self.old) (list self.old)) actor }
        ensures event { result ≡ event_of (state_at (scenario self.old) (list self.old)) actor }
        ensures list { list self.new ≡ list self.old ++ (actor, result) ∷ [] }
        ensures scenario { scenario self.new ≡ scenario self.old }
        ensures spare { spare self.new ≡ spare self.old }
        ensures inside { IsDeedInside (frames_of (scenario self.old)) result.deed };
}

/// Numbers below counts.
pub trait Turns {
    // What they come from.
    ghost state: { Self → List ℕ };

    // The number below a count, from a state.
    ghost place: { List ℕ → ℕ → ℕ };

    // The state after it.
    ghost later: { List ℕ → ℕ → List ℕ };

    /// The next number below a count.
    fn pick(&mut self, count: u32) -> u32
        requires { 0 < count }
        ensures place { result ≡ place (state self.old) count }
        ensures later { state self.new ≡ later (state self.old) count }
        ensures below { result < count };
}
