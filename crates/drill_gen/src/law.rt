//! Laws of the definitions.

ghost use Rattle.std.specs.Prelude.{ℕ, ◌≤◌, length};
ghost use Rattle.snp_model.specs.Generated.{generated};
ghost use Rattle.snp_model.specs.Reading.{Reads, Valid, most_bytes};
ghost use Rattle.snp_model.specs.ScenarioText.{scenario_text};
ghost use Rattle.snp_model.specs.Sound.{IsSound};

/// The scenario of each number is one that a text can say, and keeps the bounds that every text keeps. Its own text isn't longer than
/// a text may be, and is read again as that scenario. A law, which no program needs to call.
pub fn generated_scenarios()
    ensures valid { (number : ℕ) → Valid (generated number) }
    ensures sound { (number : ℕ) → IsSound (generated number) }
    ensures short { (number : ℕ) → length (scenario_text (generated number)) ≤ most_bytes }
    ensures again { (number : ℕ) → Reads (scenario_text (generated number)) (generated number) }
{}
