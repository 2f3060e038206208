ghost use Rattle.std.specs.Prelude.{◌≡◌, ◌≢◌, true, false};
ghost use Rattle.snp_model.specs.declared.access.Verdict.TheVariants.{Pass};
ghost use Rattle.snp_model.specs.Verdicts.{host_verdict};

use snp_model::{Op, Outcome, RmpEntry, Verdict};

/// The verdict on the hypervisor's access to a frame with this entry.
#[tactic(auto, unfolding(snp_model::specs::Verdicts::host_verdict))]
pub fn host_verdict(entry: &RmpEntry, op: &Op) -> Verdict
    ensures verdict { result ≡ host_verdict entry.now op.now }
    ensures unassigned { entry.now.assigned ≡ false → result ≡ Pass }
    ensures assigned { entry.now.assigned ≡ true → result ≢ Pass }
{
    if entry.assigned && op.writes() {
        Verdict::Fault(Outcome::Pf(0x8000_0003))
    } else if entry.assigned {
        Verdict::Hidden
    } else {
        Verdict::Pass
    }
}
