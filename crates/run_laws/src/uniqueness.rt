ghost use Rattle.std.specs.Prelude.{ℕ, List};
ghost use Rattle.snp_model.specs.declared.scenario.Scenario.{Scenario};
ghost use Rattle.snp_model.specs.GuestMemory.{memory_after};
ghost use Rattle.snp_model.specs.Holders.{InFrame};
ghost use Rattle.snp_model.specs.Opening.{asid_of};
ghost use Rattle.snp_model.specs.Past.{past_of};
ghost use Rattle.snp_model.specs.Premises.{AreLegal};
ghost use Rattle.snp_model.specs.Run.{IsDefined, state_after};
ghost use Rattle.snp_model.specs.Sound.{IsSound};
ghost use Rattle.snp_model.specs.State.{State};
ghost use Rattle.run_laws.specs.HeldLocks.{AreLocked};
ghost use Rattle.run_laws.specs.Invariant.{AreHeld, AreKnown, IsUnique};
ghost use Rattle.run_laws.specs.MadePages.{AreMade};
ghost use Rattle.run_laws.specs.Shapes.{AreShaped};
ghost use Rattle.run_laws.specs.UniqueRuns.{HasAllLive, HasOnePlace, IsOneHolder, MeetsPremises, Passes, vault_after};
ghost use Rattle.run_laws.specs.Uniqueness.{IsSingle, Seals};

/// What ties a guest's pages to their holders in every run of a sound scenario. It does nothing.
///
/// The premises on a guest (`MeetsPremises`) are that it is declared and disciplined, and that no ciphertext meets the tag
/// of another where a page is opened for it. The vault is all that tells its live entries at the end of the run.
pub fn uniqueness_laws()
    // Each page of the guest has at most one holder, and no two of its live entries have one counter.
    ensures single { (scenario : Scenario) (schedule : List ℕ) (guest : ℕ) → MeetsPremises scenario schedule guest
        → IsSingle (asid_of scenario.guests guest) (vault_after scenario schedule guest) (state_after scenario schedule).frames }

    // The list of live entries has just those that are live, and each that is live at a place in memory.
    ensures listed { (scenario : Scenario) (schedule : List ℕ) (guest : ℕ) → MeetsPremises scenario schedule guest
        → HasAllLive (asid_of scenario.guests guest) (vault_after scenario schedule guest) (state_after scenario schedule).frames }

    // Two holders of one page are one, by their places.
    ensures one_place { (scenario : Scenario) (schedule : List ℕ) (guest : ℕ) → MeetsPremises scenario schedule guest
        → HasOnePlace (asid_of scenario.guests guest) (vault_after scenario schedule guest) }

    // The guest's memory has the page of each holder.
    ensures held { (scenario : Scenario) (schedule : List ℕ) (guest : ℕ) → MeetsPremises scenario schedule guest
        → AreHeld (asid_of scenario.guests guest) (vault_after scenario schedule guest) (memory_after scenario schedule guest) }

    // A holder has the words that are known of its page: a frame in memory, an entry in its archive.
    ensures known_words { (scenario : Scenario) (schedule : List ℕ) (guest : ℕ) → MeetsPremises scenario schedule guest
        → AreKnown (asid_of scenario.guests guest) (vault_after scenario schedule guest) (memory_after scenario schedule guest) }

    // Live entries have counters below that of their context, and their tags and archives are seals of what was sealed.
    ensures seals { (scenario : Scenario) (schedule : List ℕ) (guest : ℕ) → MeetsPremises scenario schedule guest
        → Seals (asid_of scenario.guests guest) (vault_after scenario schedule guest) }

    // No lock has two holders, and what is locked stays as it was, whatever the guests do.
    ensures locks { (scenario : Scenario) (schedule : List ℕ)
        → IsSound scenario → IsDefined scenario schedule → AreLocked (state_after scenario schedule) }

    // What was sealed or opened, and is not yet committed, is still the seal of what the source has, or what was archived.
    ensures made { (scenario : Scenario) (schedule : List ℕ) (guest : ℕ) → MeetsPremises scenario schedule guest
        → AreMade guest (state_after scenario schedule) (past_of scenario schedule) }

    // The facts of each frame go together, a page of 2 MB is whole, and guests have ASIDs of their own, whatever they do.
    ensures shapes { (scenario : Scenario) (schedule : List ℕ)
        → IsSound scenario → IsDefined scenario schedule → AreShaped (state_after scenario schedule) }

    // All of it at once.
    ensures unique { (scenario : Scenario) (schedule : List ℕ) (guest : ℕ) → MeetsPremises scenario schedule guest
        → IsUnique guest (state_after scenario schedule) (past_of scenario schedule) (memory_after scenario schedule guest) }

    // A private access that passes its check is on the one holder of its page.
    ensures passes { (scenario : Scenario) (schedule : List ℕ) (guest actor gpn frame : ℕ) → MeetsPremises scenario schedule guest
        → Passes guest (state_after scenario schedule) actor gpn frame
        → IsOneHolder (asid_of scenario.guests guest) (vault_after scenario schedule guest) gpn (InFrame frame) }

    // So the private accesses of each such guest are one legal history of a memory of its own.
    ensures guest_memory_legal { (scenario : Scenario) (schedule : List ℕ)
        → IsSound scenario → IsDefined scenario schedule → AreLegal scenario schedule }
{}
