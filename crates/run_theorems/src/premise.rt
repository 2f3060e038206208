ghost use Rattle.std.specs.Prelude.{◌≤◌, ◌<◌, ◌++◌, ℕ, List, length};
ghost use Rattle.snp_model.specs.declared.scenario.Scenario.{Scenario};
ghost use Rattle.snp_model.specs.Premises.{IsDisciplined, NoChanceTag};
ghost use Rattle.snp_model.specs.Run.{IsDefined};
ghost use Rattle.snp_model.specs.Sound.{IsSound};
ghost use Rattle.run_theorems.specs.WholeArchives.{NoChanceTagInAll};

/// The second premise of a guest's legal history says the same, whether what is opened for the guest is compared with what was
/// sealed before, or with all that the run ever seals, to its end or beyond it: no ciphertext of a later sealing is taken for an
/// earlier one, since no counter seals twice, and no entry that can be opened has a counter that is still to come.
pub fn second_premise()
    // What was sealed before an event is there at the end.
    ensures in_all { (scenario : Scenario) (schedule later : List ℕ) (guest : ℕ) → IsSound scenario → IsDefined scenario (schedule ++ later)
        → NoChanceTag scenario schedule guest → NoChanceTagInAll scenario schedule later guest }

    // For a declared guest that is disciplined, what is opened as something that is sealed at the end was sealed before.
    ensures before { (scenario : Scenario) (schedule later : List ℕ) (guest : ℕ) → IsSound scenario → IsDefined scenario (schedule ++ later)
        → 0 < guest → guest ≤ length scenario.guests → IsDisciplined scenario schedule guest
        → NoChanceTagInAll scenario schedule later guest → NoChanceTag scenario schedule guest }
{}
