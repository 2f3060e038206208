ghost use Rattle.std.specs.Prelude.{ℕ, List};
ghost use Rattle.snp_model.specs.declared.scenario.Scenario.{Scenario};
ghost use Rattle.snp_model.specs.Run.{IsDefined, state_after};
ghost use Rattle.snp_model.specs.Sound.{IsSound};
ghost use Rattle.snp_model.specs.State.{IsUnfinished};
ghost use Rattle.run_theorems.specs.TouchedLocks.{HoldersStay, LocksAreTouched};

/// The locks of pages and contexts change hands only where the event of their actor touches memory. So who runs a machine on parts
/// that are lent to one event at a time has with them every lock that the event changes, and who has locked any other is known
/// without a look at it.
#[tactic(auto, using(crate::proofs::TouchedLocksLaws::run_touches, crate::proofs::TouchedLocksLaws::run_holders_stay))]
pub fn touched_locks()
    // In every run, what an actor has locked before its next event and after it is in what the event touches.
    ensures touched { (scenario : Scenario) (schedule : List ℕ) (actor : ℕ) → IsSound scenario → IsDefined scenario schedule
        → IsUnfinished (state_after scenario schedule) actor → LocksAreTouched (state_after scenario schedule) actor }

    // So the lock of each frame and context that an event doesn't touch has after it the holder that it had, or none as before.
    ensures holders { (scenario : Scenario) (schedule : List ℕ) (actor : ℕ) → IsSound scenario → IsDefined scenario schedule
        → IsUnfinished (state_after scenario schedule) actor → HoldersStay (state_after scenario schedule) actor }
{}
