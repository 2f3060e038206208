ghost use Rattle.std.specs.Prelude.{◌≡◌, ℕ};
ghost use Rattle.snp_model.specs.Journals.{IsComplete};
ghost use Rattle.snp_model.specs.State.{IsUnfinished};
ghost use Rattle.machine_board.specs.Boards.{GoesOn, board_state};

use crate::board::Board;

impl Board {
    /// Steps every actor that is unfinished, upwards, until all are finished. Takes no memory.
    #[tactic(auto, using(crate::proofs::BoardLaws::goes_on_none, crate::proofs::BoardLaws::goes_on_both, run_laws::proofs::JournalsLaws::actors_few, run_laws::proofs::JournalsLaws::unfinished_is_actor))]
    pub fn finish(&mut self)
        ensures scenario { self.new.scenario ≡ self.old.scenario }
        ensures list { GoesOn self.old.list self.new.list }
        ensures complete { IsComplete self.new.scenario self.new.list }
    {
        let count = self.scenario().actors.len() as u32;
        'actors: for actor in 1..=count {
            finish_actor(self, actor);
        }
    }
}

// Steps an actor until it is finished.
#[tactic(auto, using(crate::proofs::BoardLaws::goes_on_none, crate::proofs::BoardLaws::goes_on_push, run_laws::proofs::JournalsLaws::unfinished_earlier))]
fn finish_actor(board: &mut Board, actor: u32)
    ensures scenario { board.new.scenario ≡ board.old.scenario }
    ensures list { GoesOn board.old.list board.new.list }
    ensures finished { IsUnfinished (board_state board.new) actor → ⊥ }
    ensures others { (other : ℕ) → IsUnfinished (board_state board.new) other → IsUnfinished (board_state board.old) other }
{
    'events: while !board.finished(actor) {
        board.step(actor);
    }
}
