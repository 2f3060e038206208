ghost use Rattle.std.specs.Prelude.{◌≡◌, ℕ, ◌*◌, ◌<◌, ◌≤◌, List, length};
ghost use Rattle.snp_model.specs.declared.entry.PageSize.TheVariants.{Large};
ghost use Rattle.snp_model.specs.declared.scenario.GuestSpec.{GuestSpec};
ghost use Rattle.snp_model.specs.declared.scenario.Scenario.{Scenario};
ghost use Rattle.snp_model.specs.Attempts.{attempts_of};
ghost use Rattle.snp_model.specs.GuestMemory.{opening_memory};
ghost use Rattle.snp_model.specs.Opening.{opening};
ghost use Rattle.snp_model.specs.Past.{Past};
ghost use Rattle.snp_model.specs.Reading.{Valid};
ghost use Rattle.snp_model.specs.Run.{IsDefined, state_after};
ghost use Rattle.snp_model.specs.State.{ActorPart, State, View, part_of};
ghost use Rattle.snp_model.specs.Step.{event_of, step_of};
ghost use Rattle.snp_model.specs.Touches.{AgreeBeside, SeeAlike, StepsAlike, touches};
ghost use Rattle.run_laws.specs.HeldLocks.{AreExclusive, AreLocked, AreTested};
ghost use Rattle.run_laws.specs.Invariant.{IsUnique};
ghost use Rattle.run_laws.specs.OpenAttempts.{AreWalking, ReadsMemory};
ghost use Rattle.run_laws.specs.Ready.{AreReady};
ghost use Rattle.run_laws.specs.Room.{AreBounded};
ghost use Rattle.run_laws.specs.Shapes.{AreShaped, IsWholePage};

/// The laws of the machine's step and of its runs. It does nothing.
#[tactic(auto, using(run_laws::proofs::LocalityLaws::step_alone, run_laws::proofs::OpenAttemptsLaws::event_reads, run_laws::proofs::OpenAttemptsLaws::run_walking, run_laws::proofs::RoomLaws::run_length))]
pub fn machine_laws()
    // A step depends on nothing but the actor's own part and what it touches.
    ensures local { (frames : ℕ) (guests : List GuestSpec) (part : ActorPart) (one other : View)
        → SeeAlike (touches frames guests part) one other
        → StepsAlike (touches frames guests part) (step_of frames guests part one) (step_of frames guests part other) }

    // It changes nothing else.
    ensures alone { (frames : ℕ) (guests : List GuestSpec) (part : ActorPart) (view : View)
        → AgreeBeside (touches frames guests part) view.contents (step_of frames guests part view).contents }

    // The word that an event reads of a table is the memory's at that event.
    ensures reads { (m : State) (actor : ℕ) → ReadsMemory m.contents (event_of m actor).deed }

    // In every run the reads of an open attempt are those that its walks call for.
    ensures walking { (scenario : Scenario) (schedule : List ℕ)
        → IsDefined scenario schedule → AreWalking (state_after scenario schedule) }

    // An open attempt has fewer than 32 events so far, and a run has at most 32 for each attempt.
    ensures short { (scenario : Scenario) (schedule : List ℕ)
        → IsDefined scenario schedule → AreBounded (state_after scenario schedule) }
    ensures events { (scenario : Scenario) (schedule : List ℕ)
        → IsDefined scenario schedule → length schedule ≤ 32 * attempts_of scenario }

    // In every run of a valid scenario each actor is ready for its next event: this is all that the event rests on, beside
    // what it touches.
    ensures ready { (scenario : Scenario) (schedule : List ℕ)
        → Valid scenario → IsDefined scenario schedule → AreReady (state_after scenario schedule) }

    // The opening of a valid scenario has the seven parts of the invariant for each declared guest, whatever the past.
    ensures opening { (scenario : Scenario) (guest : ℕ) (past : Past)
        → Valid scenario → 0 < guest → guest ≤ length scenario.guests
        → IsUnique guest (opening scenario) past (opening_memory scenario guest) }

    // In every run from an opening whose pages of 2 MB are whole, whatever items the scripts have, no frame and no context
    // is locked by two actors, and what the tests of each lock asked still holds.
    ensures exclusive { (scenario : Scenario) (schedule : List ℕ)
        → AreShaped (opening scenario) → IsDefined scenario schedule → AreExclusive (state_after scenario schedule) }
    ensures tested { (scenario : Scenario) (schedule : List ℕ) (actor : ℕ)
        → AreShaped (opening scenario) → IsDefined scenario schedule
        → AreTested (state_after scenario schedule) (part_of (state_after scenario schedule) actor) }

    // In every run of a valid scenario a locked page stays as it was, and so does a locked context, for as long as its lock
    // is held, and pages of 2 MB are whole.
    ensures locked { (scenario : Scenario) (schedule : List ℕ)
        → Valid scenario → IsDefined scenario schedule → AreLocked (state_after scenario schedule) }
    ensures whole { (scenario : Scenario) (schedule : List ℕ) (frame : ℕ)
        → Valid scenario → IsDefined scenario schedule → ((state_after scenario schedule).contents.pages frame).facts.size ≡ Large
        → IsWholePage (state_after scenario schedule).contents.pages frame }
{}
