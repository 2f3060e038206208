//! Laws of what scenario texts say. The functions do nothing: their contracts are the laws.

ghost use Rattle.std.specs.Prelude.{◌↔◌, ◌≤◌, length};
ghost use Rattle.snp_model.specs.declared.scenario.Scenario.{Scenario};
ghost use Rattle.snp_model.specs.Reading.{Reads, Valid, most_bytes};
ghost use Rattle.snp_model.specs.ScenarioText.{scenario_text};
ghost use Rattle.snp_model.specs.Sound.{IsSound};
ghost use Rattle.snp_model.specs.Spelled.{IsSpelled};
ghost use Rattle.scenario_text.specs.Findings.{OneAnswer, SomeAnswer};

/// Of a text at most one thing can be said: one scenario, one line with one reason, or one limit with one count.
pub fn one_answer()
    ensures { OneAnswer }
{}

/// Of each text one of these can be said.
pub fn some_answer()
    ensures { SomeAnswer }
{}

/// A scenario that some text can say, its length left aside, has the bounds of memory, guests, actors, attempts and
/// schedule, and of each of its entries.
pub fn valid_is_sound()
    ensures { (scenario : Scenario) → Valid scenario → IsSound scenario }
{}

/// Some text can say a scenario, its length left aside, exactly where it has those bounds and its items, keys and page tables
/// are such as lines have.
pub fn valid_is_sound_and_spelled()
    ensures { (scenario : Scenario) → Valid scenario ↔ IsSound scenario × IsSpelled scenario }
{}

/// The text of a scenario that some text can say says that scenario, where it isn't longer than a text may be.
#[tactic(auto, using(crate::proofs::ValidAgain::valid_reads))]
pub fn written_is_read()
    ensures { (scenario : Scenario) → Valid scenario → length (scenario_text scenario) ≤ most_bytes → Reads (scenario_text scenario) scenario }
{}
