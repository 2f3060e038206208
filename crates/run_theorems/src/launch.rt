ghost use Rattle.std.specs.Prelude.{◌≡◌, ℕ, List};
ghost use Rattle.snp_model.specs.declared.scenario.Scenario.{Scenario};
ghost use Rattle.snp_model.specs.Measurement.{measure};
ghost use Rattle.snp_model.specs.Run.{state_after};
ghost use Rattle.run_theorems.specs.Launches.{launched_in};

/// The launch digest of a guest is that of its pages. In every run the digest in a guest's context, which the guest's line of the
/// report shows, is `measure` of the pages that were launched for it, in the order of their commits: each with the type, flag and
/// permissions of its command, the guest page number that its commit shows, and the words that its frame has behind it. So who
/// knows the pages can tell the digest without the machine, and a digest that is as expected says, as far as SHA-384 has no
/// collisions, which pages were launched, where and in which order, whatever the hypervisor did between them.
pub fn launch_digests()
    ensures digest { (scenario : Scenario) (schedule : List ℕ) (guest : ℕ)
        → ((state_after scenario schedule).contents.contexts guest).digest ≡ measure (launched_in scenario schedule guest) }
{}
