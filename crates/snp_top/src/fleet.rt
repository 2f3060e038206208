//! What threads step together in a run, and what is kept of it.
ghost use Rattle.std.specs.Prelude.{◌≡◌, ◌<◌, length, Option, None, Some, option_map, IfOk, IfSome, OnOk, OnErr};
ghost use Rattle.snp_model.specs.declared.scenario.Scenario.{Scenario};
ghost use Rattle.snp_model.specs.Reading.{Valid};
ghost use Rattle.snp_top.specs.Fleets.{ArePasses, Kept, KeepsWhole};

use outside_port::Steps;
use run_journal::Journal;
use snp_model::{GuestLine, Scenario};
use std::alloc::{AllocError, Global};
use std::sync::Wait;

/// What is kept of a run that came to its end: what is said of each guest, and the events.
#[derive(Drop)]
pub struct Ended {
    pub guests: Vec<GuestLine>,
    pub journal: Journal,
}

/// Who builds the object that the workers of a run step, and keeps what came of it.
pub trait Fleet {
    /// What the workers step.
    type Object: Steps + Sync;

    // The scenario of the last build.
    ghost opening: { Self → Option Scenario };

    // The object is of the last build.
    ghost is_built: { Self → Self.Object → Type 0 };

    // What it keeps of a run.
    ghost kept: { Self → Option Kept };

    /// Builds the object of a scenario that has an actor, and one pass for each actor, from actor 1 on. Where memory is
    /// refused, the opening and what is kept stay.
    fn build(
        &mut self,
        alloc: Global,
        scenario: &Scenario,
    ) -> Result<(Self::Object, Vec<<Self::Object as Steps>::Pass>), AllocError>
        requires valid { Valid scenario.now }
        requires some { 0 < length scenario.now.actors }
        ensures opening { OnOk result (opening self.new ≡ Some scenario.now) }
        ensures kept { OnOk result (kept self.new ≡ None) }
        ensures object { IfOk result (λ built. is_built self.new built.0) }
        ensures passes { IfOk result (λ built. ArePasses Self.Object.is_of Self.Object.actor_of built.0 (length scenario.now.actors) built.1.items) }
        ensures refused { OnErr result ((opening self.new ≡ opening self.old) × (kept self.new ≡ kept self.old)) };

    /// Takes the object and its passes back, steps every actor that isn't finished until all are, and keeps the run. Takes its
    /// memory from the allocator of the build; where it is refused, nothing is kept.
    fn end<R: Wait>(
        &mut self,
        rt: &R,
        object: Self::Object,
        passes: Vec<<Self::Object as Steps>::Pass>,
    ) -> Result<(), AllocError>
        requires built { is_built self.old object }
        requires none { kept self.old ≡ None }
        requires passes { IfSome (opening self.old) (λ c. ArePasses Self.Object.is_of Self.Object.actor_of object (length c.actors) passes.items) }
        ensures opening { opening self.new ≡ opening self.old }
        ensures whole { OnOk result (KeepsWhole (opening self.new) (kept self.new)) }
        ensures refused { OnErr result (kept self.new ≡ None) };

    /// What is kept of the run, if there is one.
    fn ended(&self) -> Option<&Ended>
        ensures { option_map (λ ended. record { guests = ended.now.guests.items; list = ended.now.journal.list }) result ≡ kept self.now };
}
