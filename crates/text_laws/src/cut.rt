ghost use Rattle.std.specs.Prelude.{◌≡◌, ◌≢◌, ◌++◌, ℕ, List, [], length};
ghost use Rattle.snp_model.specs.declared.scenario.Scenario.{Scenario};
ghost use Rattle.snp_model.specs.Lines.{parts_at};
ghost use Rattle.snp_model.specs.Reading.{EndsAt, Reads};
ghost use Rattle.text_laws.specs.Cuts.{reason_of};

/// A text that is cut is refused. Where a text says a scenario, each proper front of it is refused for its end alone: `cut` at the
/// line in which the front ends, or, where it ends behind a line or is empty, `end` at the line that would follow. So nobody who
/// holds the rest of a text back makes the program take what came for the whole.
pub fn cut_texts()
    // Every line of the front fits. Line feeds part it; the number of its parts is that of the line at which it ends.
    ensures refused { (text front rest : List ℕ) (c : Scenario) → Reads text c → text ≡ front ++ rest → rest ≢ []
        → EndsAt front (length (parts_at 10 front)) (reason_of (parts_at 10 front)) }

    // No proper front of it says a scenario, be it the same one or another.
    ensures unread { (text front rest : List ℕ) (c other : Scenario) → Reads text c → text ≡ front ++ rest → rest ≢ []
        → Reads front other → ⊥ }
{}
