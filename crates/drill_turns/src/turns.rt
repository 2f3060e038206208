ghost use Rattle.std.specs.Prelude.{◌≡◌};
ghost use Rattle.drill_turns.specs.DrawnTurns.{drawn_later, drawn_place, numbers_of};

use drill_gen::Drill;
use hv_strategy::Turns;
use std::marker::Model;

/// Picks that a drill draws. Contracts see the generator's state.
#[derive(Drop)]
pub struct DrillTurns {
    drill: Drill,
}

impl Model for DrillTurns {
    ghost use Rattle.rand_pcg.specs.Lcg.{Lcg};

    ghost Value = { Lcg };

    ghost view = { λ turns. turns.drill };
}

impl DrillTurns {
    /// The picks that a drill draws from where it is. Takes no memory.
    pub fn over(drill: Drill) -> DrillTurns
        ensures { result ≡ drill }
    {
        DrillTurns { drill }
    }

    /// The drill, behind its last pick. Takes no memory.
    pub fn end(self) -> Drill
        ensures { result ≡ self }
    {
        self.drill
    }
}

impl Turns for DrillTurns {
    ghost state = { λ turns. numbers_of turns };

    ghost place = { drawn_place };

    ghost later = { drawn_later };

    fn pick(&mut self, count: u32) -> u32 {
        self.drill.pick(count)
    }
}
