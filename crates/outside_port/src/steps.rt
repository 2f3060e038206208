ghost use Rattle.std.specs.Prelude.{◌≡◌, ◌<◌, ◌≤◌, ◌+◌, ℕ, Bool, false, Option, Some, option_map, IfSome, OnOk, OnErr};

use snp_model::Event;
use std::sync::Wait;

/// Another actor held what a step needed, so that it made no event. It can be tried again.
#[derive(Clone, Copy, Debug, PartialEq, Eq)]
pub struct Busy {
    /// The cell that was held, counted from 0.
    pub cell: u32,
    /// The actor that held it, numbered from 1.
    pub holder: u32,
}

/// What a thread passes before each step of its actor. It may wait.
pub trait Gate {
    /// Returns when the actor, numbered from 1, may go on.
    fn pass<R: Wait>(&self, rt: &R, actor: u32);
}

/// A gate that every actor may pass at once.
#[derive(Clone, Copy, Debug, Drop, PartialEq, Eq)]
pub struct OpenGate;

impl Gate for OpenGate {
    fn pass<R: Wait>(&self, rt: &R, actor: u32) {}
}

/// What threads step together, each by a pass of its own that stands for one actor.
pub trait Steps {
    /// What an actor steps by.
    type Pass: Send;

    // The pass belongs to this object.
    ghost is_of: { Self → Self.Pass → Type 0 };

    // The actor of a pass, numbered from 1.
    ghost actor_of: { Self.Pass → ℕ };

    // How often a step by this pass found something held.
    ghost refused: { Self.Pass → ℕ };

    // Whether the actor of a pass has passed its last item, where the object tells it.
    ghost done: { Self.Pass → Option Bool };

    // How many events were made by a pass, where the object tells it.
    ghost made: { Self.Pass → Option ℕ };

    /// The actor of a pass.
    fn actor(&self, pass: &Self::Pass) -> u32
        requires { is_of self.now pass.now }
        ensures { result ≡ actor_of pass.now };

    /// Whether the actor of a pass has passed its last item, or doesn't exist.
    fn finished<R: Wait>(&self, rt: &R, pass: &Self::Pass) -> bool
        requires { is_of self.now pass.now }
        ensures { IfSome (done pass.now) (λ done. result ≡ done) };

    /// Makes one event of the actor of a pass. Where the actor has passed its last item, or doesn't exist, nothing is
    /// changed, and the answer is an event of no run: an attempt 0 of the item after the last, which looks at a skip's
    /// test and has no outcome.
    fn one<R: Wait>(&self, rt: &R, pass: &mut Self::Pass) -> Result<Event, Busy>
        requires { is_of self.now pass.old }
        ensures same { is_of self.now pass.new }
        ensures actor { actor_of pass.new ≡ actor_of pass.old }
        ensures later { refused pass.old ≤ refused pass.new }
        ensures event { OnOk result
            (done pass.old ≡ Some false → made pass.new ≡ option_map (λ count. count + 1) (made pass.old)) }
        ensures busy { OnErr result ((refused pass.old < refused pass.new) × (made pass.new ≡ made pass.old)) };
}
