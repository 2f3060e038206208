ghost use Rattle.std.specs.Prelude.{◌≡◌, ◌≤◌, ◌<◌, ◌++◌, ℕ, List, Some};
ghost use Rattle.snp_model.specs.declared.scenario.Scenario.{Scenario};
ghost use Rattle.snp_model.specs.Live.{Archived};
ghost use Rattle.snp_model.specs.Past.{archive_of};
ghost use Rattle.snp_model.specs.Run.{IsDefined, state_after};
ghost use Rattle.snp_model.specs.Sound.{IsSound};
ghost use Rattle.snp_model.specs.State.{State};
ghost use Rattle.snp_model.specs.Step.{after};
ghost use Rattle.run_theorems.specs.Counters.{counter_of};

/// No counter seals twice. What leaves a guest's memory for the hypervisor's disk is sealed under the guest's counter, and in no run
/// are two pages of a guest, metadata pages among them, sealed under one, by which AES-GCM would have a nonce twice. The words and
/// the ciphertext that were sealed under a counter before an event are those that the whole run has under it, however it goes on.
/// Nothing is asked of guests, of their discipline or of ciphertexts.
pub fn sealing_counters()
    // No event makes a guest's counter fall, in whatever state.
    ensures never_falls { (m : State) (actor guest : ℕ) → counter_of m guest ≤ counter_of (after m actor) guest }

    // What was sealed was sealed under a counter below the guest's, which is that of its next sealing.
    ensures below { (scenario : Scenario) (schedule : List ℕ) (guest counter : ℕ) (sealed : Archived)
        → IsSound scenario → IsDefined scenario schedule → archive_of scenario schedule guest counter ≡ Some sealed
        → counter < counter_of (state_after scenario schedule) guest }

    // What was sealed under a counter stays what was sealed under it, however the run goes on.
    ensures stays { (scenario : Scenario) (schedule later : List ℕ) (guest counter : ℕ) (sealed : Archived)
        → IsSound scenario → IsDefined scenario (schedule ++ later) → archive_of scenario schedule guest counter ≡ Some sealed
        → archive_of scenario (schedule ++ later) guest counter ≡ Some sealed }
{}
