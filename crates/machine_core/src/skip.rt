ghost use Rattle.std.specs.Prelude.{◌≡◌, None, Some};
ghost use Rattle.snp_model.specs.declared.event.Deed.TheVariants.{Control};
ghost use Rattle.snp_model.specs.Skips.{gives, test_holds, skip_outcome};

use crate::actor::ActorState;
use crate::shown::Shown;
use snp_model::{Deed, Outcome, SkipTest};

/// The one event of a skip of so many items.
#[inline(never)]
#[tactic(auto, unfolding(snp_model::specs::Skips::skip_outcome))]
pub fn skip(actor: &ActorState, count: u32, test: &SkipTest, shown: &mut Shown)
    ensures { shown.new ≡ record { deed = Control; outcome = Some (skip_outcome count test.now actor.now.last); lock = None } }
{
    let outcome = match actor.last() {
        None => Outcome::Next,
        Some(last) => {
            if holds(test, &last) {
                Outcome::Skipped(count)
            } else {
                Outcome::Next
            }
        }
    };
    *shown = Shown::last(Deed::Control, outcome);
}

// Whether a test holds of an outcome.
#[tactic(auto, unfolding(snp_model::specs::Skips::test_holds))]
fn holds(test: &SkipTest, outcome: &Outcome) -> bool
    ensures { result ≡ test_holds test.now outcome.now }
{
    match test {
        SkipTest::Good => outcome.is_good(),
        SkipTest::Bad => outcome.is_bad(),
        SkipTest::Value(value) => gives(*value, outcome),
    }
}

// Whether an outcome gives this value.
#[tactic(auto, using(crate::proofs::SkipLaws::gives_none), unfolding(snp_model::specs::Skips::gives))]
fn gives(value: u64, outcome: &Outcome) -> bool
    ensures { result ≡ gives value outcome.now }
{
    match outcome {
        Outcome::Loaded(word) => *word == value,
        Outcome::Swapped(word) => *word == value,
        Outcome::Compared { found, .. } => *found == value,
        _ => false,
    }
}
