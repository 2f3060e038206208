ghost use Rattle.std.specs.Prelude.{◌≡◌, ◌<◌, IfOk};
ghost use Rattle.snp_model.specs.Generated.{draw, generator_of};

use rand_core::utils::NextWord;
use rand_pcg::Lcg64Xsh32;
use std::alloc::AllocError;
use std::marker::Model;

/// What draws a scenario and a schedule: a generator of numbers. Contracts see its state.
#[derive(Drop)]
pub struct Drill {
    generator: Lcg64Xsh32,
}

impl Model for Drill {
    ghost use Rattle.rand_pcg.specs.Lcg.{Lcg};

    ghost Value = { Lcg };

    ghost view = { λ drill. drill.generator };
}

impl Drill {
    /// The drill of a number, before its first draw.
    #[tactic(auto, unfolding(snp_model::specs::Generated::generator_of))]
    pub fn from_number(number: u64) -> Drill
        ensures { result ≡ generator_of number }
    {
        Drill {
            generator: Lcg64Xsh32::new(number, 1),
        }
    }

    /// Names one of so many, from 0 on: the next number drawn below the count.
    #[tactic(auto, unfolding(snp_model::specs::Generated::draw))]
    pub fn pick(&mut self, count: u32) -> u32
        requires { 0 < count }
        ensures drawn { (result, self.new) ≡ draw count self.old }
        ensures below { result < count }
    {
        self.generator.next_word() % count
    }

    /// A drill that draws the same.
    pub(crate) fn copy(&self) -> Result<Drill, AllocError>
        ensures { IfOk result (λ copy. copy ≡ self.now) }
    {
        Ok(Drill {
            generator: self.generator.clone()?,
        })
    }
}
