ghost use Rattle.std.specs.Prelude.{◌≡◌, None};

use crate::board::Board;
use outside_port::{Busy, Steps};
use snp_model::Event;
use std::sync::{Mutex, Wait};

/// A board that threads step one after the other, under a lock. What another thread did is known by what a board's type
/// keeps, and no more.
pub struct LockedBoard {
    board: Mutex<Board>,
}

/// The pass of an actor, for any board. It keeps whether the actor was finished when it was last stepped by it, so that this
/// is asked without the lock.
#[derive(Clone, Copy, Debug, Drop, PartialEq, Eq)]
pub struct BoardPass {
    /// The actor, numbered from 1.
    pub actor: u32,
    finished: bool,
}

impl BoardPass {
    /// The pass of an actor, numbered from 1, that it hasn't stepped yet.
    pub fn new(actor: u32) -> BoardPass
        ensures { result.actor ≡ actor }
    {
        BoardPass {
            actor,
            finished: false,
        }
    }
}

impl LockedBoard {
    /// Puts a board under a lock.
    pub fn over(board: Board) -> LockedBoard {
        LockedBoard {
            board: Mutex::new(board),
        }
    }

    /// Takes the board back.
    pub fn end(self) -> Board {
        let LockedBoard { board } = self;
        board.into_inner()
    }
}

impl Steps for LockedBoard {
    type Pass = BoardPass;

    ghost is_of = { λ object pass. Unit {0} };

    ghost actor_of = { λ pass. pass.actor };

    ghost refused = { λ pass. 0 };

    ghost done = { λ pass. None };

    ghost made = { λ pass. None };

    fn actor(&self, pass: &BoardPass) -> u32 {
        pass.actor
    }

    fn finished<R: Wait>(&self, _rt: &R, pass: &BoardPass) -> bool {
        pass.finished
    }

    fn one<R: Wait>(&self, rt: &R, pass: &mut BoardPass) -> Result<Event, Busy> {
        let mut board = self.board.lock(rt);
        let event = board.one(pass.actor);
        pass.finished = board.finished(pass.actor);
        Ok(event)
    }
}
