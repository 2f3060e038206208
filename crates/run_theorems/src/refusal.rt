ghost use Rattle.std.specs.Prelude.{◌≡◌, ◌≢◌, ◌-◌, ℕ, true, List, Some};
ghost use Rattle.snp_model.specs.declared.event.Outcome.{Outcome};
ghost use Rattle.snp_model.specs.declared.scenario.Scenario.{Scenario};
ghost use Rattle.snp_model.specs.Run.{IsDefined, state_after};
ghost use Rattle.snp_model.specs.Sound.{IsSound};
ghost use Rattle.snp_model.specs.State.{State, nothing_taken, part_of, IsUnfinished};
ghost use Rattle.snp_model.specs.Step.{after, event_of};
ghost use Rattle.run_theorems.specs.Refusals.{LetsGo, is_refusal};

/// A refusal changes nothing. Whatever an actor attempts, in whatever state, be it an access, an instruction or a command of
/// the firmware, and whichever of its events it is that is refused: memory, RMP entries and guests' contexts are as before, the
/// actor keeps no lock and no page that a compute has made, and all others are where they were. So a hypervisor or a guest that is
/// answered with a fault or with a status other than success may try again, or something else, as if it had never asked.
pub fn refused_steps()
    // Words, facts of frames and contexts of guests stay.
    ensures still { (m : State) (actor : ℕ) (outcome : Outcome) → (event_of m actor).outcome ≡ Some outcome → is_refusal outcome ≡ true
        → (after m actor).contents ≡ m.contents }

    // The end of an attempt, by a refusal or not, releases all that the actor has locked, and lets go what it has computed.
    ensures released { (m : State) (actor : ℕ) (outcome : Outcome) → IsUnfinished m actor → (event_of m actor).outcome ≡ Some outcome
        → (part_of (after m actor) actor).standing ≡ nothing_taken }

    // So in every run each page and each context that it had locked is free for whoever asks next, and all other locks stay.
    ensures unlocked { (scenario : Scenario) (schedule : List ℕ) (actor : ℕ) (outcome : Outcome) → IsSound scenario → IsDefined scenario schedule
        → IsUnfinished (state_after scenario schedule) actor → (event_of (state_after scenario schedule) actor).outcome ≡ Some outcome
        → LetsGo (state_after scenario schedule) actor }

    // All other actors are where they were, with the locks that they had.
    ensures others { (m : State) (actor other : ℕ) → other - 1 ≢ actor - 1 → part_of (after m actor) other ≡ part_of m other }
{}
