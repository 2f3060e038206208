//! The words of a frame at the opening.

ghost use Rattle.std.specs.Prelude.{◌≡◌, ◌<◌};
ghost use Rattle.std.specs.List.{AllByRecursion};
ghost use Rattle.snp_model.specs.Opening.{words_from};
ghost use Rattle.snp_model.specs.State.{zero_words};

use snp_model::WordSpec;

/// The words of a frame where these were set, the later ones replacing the earlier, and all others are 0.
#[tactic(auto, using(crate::proofs::OpeningLaws::content_words), unfolding(crate::proofs::OpeningLaws::content_from, snp_model::specs::State::zero_words))]
pub(crate) fn opening_words(words: &[WordSpec], frame: u32) -> [u64; 512]
    requires { AllByRecursion (λ word. word.index < 512) words.now }
    ensures { result ≡ words_from (λ _. zero_words) words.now frame }
{
    let mut content = [0; 512];
    'words: for word in words {
        if word.frame == frame {
            content[word.index as usize] = word.value;
        }
    }
    content
}
