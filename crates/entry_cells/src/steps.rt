//! Taking and giving on the table, by a seat.
ghost use Rattle.std.specs.Prelude.{◌≡◌, ◌<◌, ◌+◌, [], IfOk, IfErr};
ghost use Rattle.entry_cells.specs.Views.{Holds, given};
ghost use Rattle.entry_cells.specs.Moves.{Fits};
ghost use Rattle.entry_cells.specs.Passes.{IsSeated, Takes, Refuses};

use crate::board::{Board, Lodged, Place};
use crate::journal::{Journal, Kept};
use crate::plays::{Give, Open, Shut, Take};

// Takes what lies in the cell `at`, or gives the number of the pass that has it.
pub(crate) fn take_word<T: Kept<J>, J: Journal>(
    board: &Board<T, J>,
    seat: &mut Place<T, J>,
    at: usize,
    actor: u32,
) -> Result<Lodged<T, J>, u32>
    requires seat { IsSeated board.now.table_id board.now.key.cells (J.opening board.now.key.journal.value) seat.old.table_id seat.old.me }
    requires actor { seat.old.me.0.actor ≡ actor }
    requires exists { at < board.now.key.cells + 1 }
    requires lacks { Holds seat.old.me.0 at → ⊥ }
    ensures same { (seat.new.table_id ≡ seat.old.table_id) × (seat.new.id ≡ seat.old.id) }
    ensures taken { IfOk result (λ y. Takes T.legal T.stands T.touches J.opening J.list board.now.key.cells (J.opening board.now.key.journal.value) seat.old.me.0 at y seat.new.me) }
    ensures held { IfErr result (λ r. Refuses seat.old.me at r seat.new.me) }
{
    let found = board.compare_exchange::<Take<T, J>>(seat, at, 0, u64::from(actor));
    if found != 0 {
        return Err(found as u32);
    }
    let lodged = board.exchange(seat, at, None).unwrap();
    board.load::<Shut>(seat, at);
    Ok(lodged)
}

// Gives back what lies in the cell `at` from now on.
pub(crate) fn give_word<T: Kept<J>, J: Journal>(
    board: &Board<T, J>,
    seat: &mut Place<T, J>,
    at: usize,
    lodged: Lodged<T, J>,
)
    requires seat { IsSeated board.now.table_id board.now.key.cells (J.opening board.now.key.journal.value) seat.old.table_id seat.old.me }
    requires exists { at < board.now.key.cells + 1 }
    requires holds { Holds seat.old.me.0 at }
    requires fits { Fits T.legal T.stands T.touches J.opening J.list board.now.key.cells (J.opening board.now.key.journal.value) seat.old.me.0 at lodged }
    ensures same { (seat.new.table_id ≡ seat.old.table_id) × (seat.new.id ≡ seat.old.id) }
    ensures given { seat.new.me ≡ (given J.list seat.old.me.0 at lodged, []) }
{
    board.load::<Open>(seat, at);
    match board.exchange(seat, at, Some(lodged)) {
        None => {}
        Some(_) => unreachable!(),
    }
    board.swap::<Give<T, J>>(seat, at, 0);
}
