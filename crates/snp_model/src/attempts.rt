ghost use Rattle.std.specs.Prelude.{◌≡◌, ◌≤◌};
ghost use Rattle.snp_model.specs.Attempts.{actors_attempts, attempts_of, script_attempts};
ghost use Rattle.snp_model.specs.Reading.{Valid};

use crate::{Actor, Line, Scenario};

impl Scenario {
    /// How many attempts its actors have at most: each item once, and its retries.
    #[tactic(auto, unfolding(crate::specs::Attempts::attempts_of), using(crate::proofs::SoundLaws::attempts_few))]
    pub fn attempts(&self) -> usize
        requires { Valid self.now }
        ensures count { result ≡ attempts_of self.now }
        ensures few { result ≤ 8192 }
    {
        count_attempts(self.actors.as_slice())
    }
}

// How many attempts the actors have at most.
#[tactic(auto, unfolding(crate::specs::Attempts::actors_attempts))]
fn count_attempts(actors: &[Actor]) -> usize
    requires { actors_attempts actors.now ≤ 8192 }
    ensures { result ≡ actors_attempts actors.now }
{
    let mut count = 0;
    'actors: for actor in actors {
        count += count_script(actor.script.as_slice());
    }
    count
}

// How many attempts a script has at most.
#[tactic(auto, unfolding(crate::specs::Attempts::script_attempts))]
fn count_script(script: &[Line]) -> usize
    requires { script_attempts script.now ≤ 8192 }
    ensures { result ≡ script_attempts script.now }
{
    let mut count = 0;
    'lines: for line in script {
        count += 1 + line.retries as usize;
    }
    count
}
