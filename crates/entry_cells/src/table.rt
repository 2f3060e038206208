//! The cells, and the passes that their threads use.
ghost use Rattle.std.specs.Prelude.{◌≡◌};

use crate::board::{Cabinet, Place};
use crate::journal::{Journal, Kept};
use std::alloc::Global;
use std::marker::Model;

/// Cells, each with its value at home or with the pass that took it, and a journal.
#[derive(Drop)]
pub struct Cells<T: Kept<J>, J: Journal> {
    pub(crate) table: Cabinet<T, J>,
    pub(crate) cells: u32,
    pub(crate) actors: u32,
    pub(crate) alloc: Global,
}

impl<T: Kept<J>, J: Journal> Model for Cells<T, J> {
    ghost use Rattle.entry_cells.specs.Passes.{CellsView, IsTable};

    ghost Value = { CellsView J.Opening };

    ghost view = { λ a. record { table = a.table.shared.table_id; cells = a.cells; actors = a.actors; opening = J.opening a.table.shared.key.journal.value } };

    ghost invariant = { λ a. IsTable a.table.shared.table_id a.cells a.actors a.table.shared.key.cells a.table.shared.key.actors };
}

/// What lets one actor take and give the cells of one `Cells`.
#[derive(Drop)]
pub struct Pass<T, J: Journal> {
    pub(crate) actor: u32,
    pub(crate) seat: Place<T, J>,
}

impl<T, J: Journal> Model for Pass<T, J> {
    ghost use Rattle.std.specs.Prelude.{[]};
    ghost use Rattle.entry_cells.specs.Passes.{PassView, IsReady};

    ghost Value = { PassView J.Opening J.Entry };

    ghost view = { λ p. record { table = p.seat.table_id; view = p.seat.me.0 } };

    ghost invariant = { λ p. IsReady p.actor p.seat.me };
}

/// A value that was taken out of its cell.
#[derive(Drop)]
pub struct Taken<T> {
    pub cell: u32,
    pub value: T,
}

/// The cell is with the pass of this actor.
#[derive(Debug, Drop)]
pub struct Held {
    pub holder: u32,
}
