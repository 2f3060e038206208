//! Closing: all passes become one, and what lies in the slots comes out.
ghost use Rattle.std.specs.Prelude.{◌≡◌, ◌<◌, ◌≤◌, ◌+◌, ℕ, [], List, length, vec_capacity, false, slice_set, slice_index_or, IsTrue, IfOk, Some};
ghost use mathlib.Core.Option.{some};
ghost use lib.ListN.{get_elem?};
ghost use Rattle.std.specs.Mem.Slots.{slots_items, slots_filled, slots_len, IsFull};
ghost use Rattle.entry_cells.specs.Views.{absorbing};
ghost use Rattle.entry_cells.specs.Passes.{IsPassOf, HoldsNothing, AreIdle, AreAll, Shown, TookAll, Knows, IsSeated};
ghost use Rattle.entry_cells.specs.declared.board.Lodged.TheVariants.{Cell, Journal as TheJournal};

use crate::board::{Cabinet, Lodged, Place, View};
use crate::journal::{Journal, Kept};
use crate::plays::Absorb;
use crate::table::{Cells, Pass};
use atomic_table::Closed;
use std::alloc::{AllocError, Global};

impl<T: Kept<J>, J: Journal> Cells<T, J> {
    /// Gives the values and the journal, once all passes are there and none holds a cell.
    ///
    /// # Errors
    /// `AllocError` where there is no memory for the list of values. The cells and the passes are dropped.
    pub fn close(self, passes: Vec<Pass<T, J>>) -> Result<(Vec<T>, J), AllocError>
        requires idle { AreIdle self passes.items }
        requires all { AreAll self.actors passes.items }
        ensures count { IfOk result (λ r. length r.0.items ≡ self.cells) }
        ensures opening { IfOk result (λ r. J.opening r.1 ≡ self.opening) }
        ensures legal { IfOk result (λ r. T.legal self.opening (J.list r.1)) }
        ensures values { IfOk result (λ r. (k : ℕ) (x : T) → get_elem? r.0.items k ≡ some x → T.stands k self.opening (J.list r.1) x) }
        ensures passes { IfOk result (λ r. (i : ℕ) (p : _) → get_elem? passes.items i ≡ some p → Shown (J.list r.1) p.view) }
    {
        let values = Vec::with_capacity(self.alloc, self.cells as usize)?;
        let last = self.joined(passes);
        Ok(self.emptied(last, values))
    }

    // All passes as one.
    fn joined(&self, mut passes: Vec<Pass<T, J>>) -> Pass<T, J>
        requires idle { AreIdle self.now passes.items }
        requires some { 0 < length passes.items }
        ensures idle { IsPassOf self.now result × HoldsNothing result.view }
        ensures all { (i : ℕ) (p : _) → get_elem? passes.items i ≡ some p → Knows result.view p.view }
    {
        let Some(mut last) = passes.pop() else {
            unreachable!()
        };
        'rest: while let Some(other) = passes.pop() {
            self.absorb(&mut last, other);
        }
        last
    }

    // Closes one pass into another.
    fn absorb(&self, first: &mut Pass<T, J>, other: Pass<T, J>)
        requires first { IsPassOf self.now first.old }
        requires other { IsPassOf self.now other }
        requires idle { HoldsNothing other.view }
        ensures { first.new ≡ record first.old { view = absorbing first.old.view other.view } }
    {
        let Pass { actor: _, seat } = other;
        self.table.shared.join_seat::<Absorb>(&mut first.seat, seat);
    }

    // What lies in the slots, by a pass that has taken in all others.
    fn emptied(self, last: Pass<T, J>, values: Vec<T>) -> (Vec<T>, J)
        requires pass { IsPassOf self last × HoldsNothing last.view }
        requires all { TookAll self.actors last.view }
        requires room { (values.items ≡ []) × (self.cells ≤ vec_capacity values) }
        ensures count { length result.0.items ≡ self.cells }
        ensures opening { J.opening result.1 ≡ self.opening }
        ensures legal { T.legal self.opening (J.list result.1) }
        ensures values { (k : ℕ) (x : T) → get_elem? result.0.items k ≡ some x → T.stands k self.opening (J.list result.1) x }
        ensures passes { (w : View J.Opening J.Entry) → Knows last.view w → Shown (J.list result.1) w }
    {
        let Cells {
            table,
            cells,
            actors: _,
            alloc: _,
        } = self;
        let Pass { actor: _, seat } = last;
        drain(table, seat, cells as usize, values)
    }
}

// Closes the table by a seat that has taken in all others.
fn drain<T: Kept<J>, J: Journal>(
    table: Cabinet<T, J>,
    seat: Place<T, J>,
    cells: usize,
    values: Vec<T>,
) -> (Vec<T>, J)
    requires seat { IsSeated table.shared.table_id table.shared.key.cells (J.opening table.shared.key.journal.value) seat.table_id seat.me }
    requires idle { HoldsNothing seat.me.0 }
    requires all { TookAll table.shared.key.actors seat.me.0 }
    requires cells { cells ≡ table.shared.key.cells }
    requires room { (values.items ≡ []) × (cells ≤ vec_capacity values) }
    ensures count { length result.0.items ≡ cells }
    ensures opening { J.opening result.1 ≡ J.opening table.shared.key.journal.value }
    ensures legal { T.legal (J.opening table.shared.key.journal.value) (J.list result.1) }
    ensures values { (k : ℕ) (x : T) → get_elem? result.0.items k ≡ some x → T.stands k (J.opening table.shared.key.journal.value) (J.list result.1) x }
    ensures passes { (w : View J.Opening J.Entry) → Knows seat.me.0 w → Shown (J.list result.1) w }
{
    let closed = table.close_with(seat);
    unload(closed, cells, values)
}

// Takes the values, and then the journal, out of the slots.
fn unload<T: Drop, J: Drop>(
    mut closed: Closed<Option<Lodged<T, J>>, Global>,
    cells: usize,
    mut values: Vec<T>,
) -> (Vec<T>, J)
    requires full { IsFull closed.slots × (slots_len closed.slots ≡ cells + 1) }
    requires cells { (k : ℕ) → k < cells → (x : T) × (get_elem? (slots_items closed.slots) k ≡ some (Some (Cell x))) }
    requires journal { (j : J) × (get_elem? (slots_items closed.slots) cells ≡ some (Some (TheJournal j))) }
    requires room { (values.items ≡ []) × (cells ≤ vec_capacity values) }
    ensures count { length result.0.items ≡ cells }
    ensures values { (k : ℕ) (x : T) → get_elem? result.0.items k ≡ some x → get_elem? (slots_items closed.slots) k ≡ some (Some (Cell x)) }
    ensures journal { get_elem? (slots_items closed.slots) cells ≡ some (Some (TheJournal result.1)) }
{
    'cells: for k in 0..cells {
        values.push_reserved(take_cell(&mut closed, k));
    }
    let journal = take_journal(&mut closed, cells);
    closed.free();
    (values, journal)
}

// The value in a slot.
fn take_cell<T: Drop, J: Drop>(closed: &mut Closed<Option<Lodged<T, J>>, Global>, at: usize) -> T
    requires full { (at < slots_len closed.old.slots) × IsTrue (slice_index_or (slots_filled closed.old.slots) at false) }
    requires value { (x : T) × (get_elem? (slots_items closed.old.slots) at ≡ some (Some (Cell x))) }
    ensures value { get_elem? (slots_items closed.old.slots) at ≡ some (Some (Cell result)) }
    ensures others { (slots_items closed.new.slots ≡ slots_items closed.old.slots) × (slots_filled closed.new.slots ≡ slice_set (slots_filled closed.old.slots) at false) × (slots_len closed.new.slots ≡ slots_len closed.old.slots) }
{
    match closed.take(at) {
        Some(Lodged::Cell(value)) => value,
        Some(Lodged::Journal(_)) => unreachable!(),
        None => unreachable!(),
    }
}

// The journal in a slot.
fn take_journal<T: Drop, J: Drop>(closed: &mut Closed<Option<Lodged<T, J>>, Global>, at: usize) -> J
    requires full { (at < slots_len closed.old.slots) × IsTrue (slice_index_or (slots_filled closed.old.slots) at false) }
    requires value { (j : J) × (get_elem? (slots_items closed.old.slots) at ≡ some (Some (TheJournal j))) }
    ensures value { get_elem? (slots_items closed.old.slots) at ≡ some (Some (TheJournal result)) }
    ensures others { (slots_items closed.new.slots ≡ slots_items closed.old.slots) × (slots_filled closed.new.slots ≡ slice_set (slots_filled closed.old.slots) at false) × (slots_len closed.new.slots ≡ slots_len closed.old.slots) }
{
    match closed.take(at) {
        Some(Lodged::Journal(journal)) => journal,
        Some(Lodged::Cell(_)) => unreachable!(),
        None => unreachable!(),
    }
}
