ghost use Rattle.std.specs.Prelude.{◌≡◌, ℕ, List};
ghost use Rattle.snp_model.specs.Report.{actors_in, AreLongest, runs_of};

/// The runs of a list of actors stand for that list, and each is as long as possible. A law, which
/// no program needs to call.
#[tactic(auto, using(crate::proofs::Runs::runs_spell, crate::proofs::Runs::runs_longest))]
pub fn runs_are_longest()
    ensures same { (actors : List ℕ) → actors_in (runs_of actors) ≡ actors }
    ensures longest { (actors : List ℕ) → AreLongest (runs_of actors) }
{}
