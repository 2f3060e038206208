//! Boards under a lock, which workers step.
ghost use Rattle.std.specs.Prelude.{◌≡◌, ℕ, ◌+◌, ◌<◌, ◌≤◌, length, slice_index_or, None, IfOk, OnOk, OnErr};
ghost use Rattle.machine_board.specs.Boards.{board_state};
ghost use Rattle.snp_model.specs.Ending.{lines_of};
ghost use Rattle.snp_top.specs.Fleets.{KeepsWhole};
ghost use Rattle.snp_top.specs.Stages.{IsUnderWay, kept_of, opening_of};

use crate::fleet::{Ended, Fleet};
use machine_board::{Board, BoardPass, LockedBoard};
use snp_model::{GuestLine, Scenario};
use std::alloc::{AllocError, Global};
use std::mem;
use std::sync::Wait;

/// A fleet whose object is a board under a lock. A lock tells of the board that comes back no more than what its type keeps,
/// so a second board is built beside it, and is run where the first one isn't of the scenario of the build, which no worker
/// brings about.
#[derive(Drop)]
pub struct LockedFleet {
    stage: Stage,
}

/// How far the fleet has come.
#[derive(Drop)]
enum Stage {
    /// Nothing was built.
    New,
    /// A board was given to the workers, and this is the other one.
    Built { alloc: Global, spare: Board },
    /// A run of this scenario came to its end.
    Done { opening: Scenario, ended: Ended },
}

impl LockedFleet {
    /// A fleet that has built nothing.
    pub fn new() -> LockedFleet
        ensures { kept_of result.stage ≡ None }
    {
        LockedFleet { stage: Stage::New }
    }
}

impl Fleet for LockedFleet {
    type Object = LockedBoard;

    ghost opening = { λ fleet. opening_of fleet.stage };

    ghost is_built = { λ fleet object. IsUnderWay fleet.stage };

    ghost kept = { λ fleet. kept_of fleet.stage };

    fn build(
        &mut self,
        alloc: Global,
        scenario: &Scenario,
    ) -> Result<(LockedBoard, Vec<BoardPass>), AllocError> {
        let passes = make_passes(alloc, scenario.actors.len())?;
        let board = Board::build(alloc, scenario)?;
        let spare = Board::build(alloc, scenario)?;
        self.stage = Stage::Built { alloc, spare };
        Ok((LockedBoard::over(board), passes))
    }

    fn end<R: Wait>(
        &mut self,
        rt: &R,
        object: LockedBoard,
        passes: Vec<BoardPass>,
    ) -> Result<(), AllocError>
        requires { IsUnderWay self.old.stage }
        ensures opening { opening_of self.new.stage ≡ opening_of self.old.stage }
        ensures whole { OnOk result (KeepsWhole (opening_of self.new.stage) (kept_of self.new.stage)) }
        ensures refused { OnErr result (kept_of self.new.stage ≡ None) }
    {
        match mem::replace(&mut self.stage, Stage::New) {
            Stage::Built { alloc, spare } => {
                let mut board = chosen(object.end(), spare);
                board.finish();
                match guest_lines(alloc, &board) {
                    Ok(guests) => {
                        let (opening, journal) = board.into_parts();
                        self.stage = Stage::Done {
                            opening,
                            ended: Ended { guests, journal },
                        };
                        Ok(())
                    }
                    Err(error) => {
                        self.stage = Stage::Built {
                            alloc,
                            spare: board,
                        };
                        Err(error)
                    }
                }
            }
            Stage::New | Stage::Done { .. } => unreachable!(),
        }
    }

    fn ended(&self) -> Option<&Ended> {
        match &self.stage {
            Stage::New => None,
            Stage::Built { .. } => None,
            Stage::Done { ended, .. } => Some(ended),
        }
    }
}

// The passes of so many actors, from actor 1 on.
fn make_passes(alloc: Global, count: usize) -> Result<Vec<BoardPass>, AllocError>
    requires { count ≤ 32 }
    ensures count { IfOk result (λ passes. length passes.items ≡ count) }
    ensures actors { IfOk result (λ passes. (k : ℕ) (d : BoardPass) → k < count → (slice_index_or passes.items k d).actor ≡ k + 1) }
{
    let mut passes = Vec::with_capacity(alloc, count)?;
    'passes: for k in 0..count as u32 {
        passes.push_reserved(BoardPass::new(k + 1));
    }
    Ok(passes)
}

// The board that came back, if it is of the scenario of the build, and else the other one.
fn chosen(board: Board, spare: Board) -> Board
    ensures { result.scenario ≡ spare.scenario }
{
    if board.scenario().is_same(spare.scenario()) {
        board
    } else {
        spare
    }
}

// What is said of each guest.
#[tactic(auto, unfolding(snp_model::specs::Ending::lines_from))]
fn guest_lines(alloc: Global, board: &Board) -> Result<Vec<GuestLine>, AllocError>
    ensures { IfOk result (λ guests. guests.items ≡ lines_of (board_state board.now)) }
{
    let count = board.guests();
    let mut guests = Vec::with_capacity(alloc, count as usize)?;
    'guests: for k in 0..count {
        guests.push_reserved(board.guest_line(k + 1));
    }
    Ok(guests)
}
