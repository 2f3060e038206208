//! What the table of the cells holds, and what its seats know.
use crate::journal::{Journal, Kept};
use atomic_table::{Seat, Shared, Table, TableRule};
use std::alloc::Global;
use std::collections::LinkedList;
use std::marker::PhantomData;
use std::snapshot::Snapshot;

/// A try that found another pass as the holder of a cell. The journal counts as the cell after the last.
pub struct Refusal {
    pub cell: u32,
    pub holder: u32,
    /// The cells that the pass held then.
    pub had: LinkedList<bool>,
}

/// What a pass knew when it was closed.
pub struct Absorbed<E> {
    pub actor: u32,
    pub seen: LinkedList<(u32, E)>,
    pub mine: LinkedList<E>,
}

/// What a pass knows. It is for clauses alone: no value of it is made.
pub struct View<O, E> {
    pub actor: u32,
    /// The journal's opening, or none after the pass was closed.
    pub opening: Option<O>,
    /// The part of the journal that the pass has seen, from its beginning.
    pub seen: LinkedList<(u32, E)>,
    /// The entries that the pass has added.
    pub mine: LinkedList<E>,
    /// For each cell, and then for the journal, whether the pass holds it.
    pub held: LinkedList<bool>,
    /// The tries that were refused.
    pub refusals: LinkedList<Refusal>,
    /// The slot that is out with the pass in the middle of a call.
    pub out: Option<u32>,
    /// In the first pass, the number of passes that were made.
    pub made: u32,
    /// How many passes there are once all are made.
    pub actors: u32,
    /// The passes that were closed into this one.
    pub taken_in: LinkedList<Absorbed<E>>,
}

// What lies in a slot.
#[derive(Drop)]
pub(crate) enum Lodged<T, J> {
    Cell(T),
    Journal(J),
}

// What the table is made with: the journal as it was then, the number of cells, and that of passes.
#[derive(Drop)]
pub(crate) struct About<J> {
    pub(crate) journal: Snapshot<J>,
    pub(crate) cells: usize,
    pub(crate) actors: u32,
}

// The rule of the table.
pub(crate) struct Law<T, J> {
    of: PhantomData<(T, J)>,
}

impl<T: Kept<J>, J: Journal> TableRule<
    Option<Lodged<T, J>>,
    View<<J as Journal>::Opening, <J as Journal>::Entry>,
    About<J>,
> for Law<T, J> {
    ghost use Rattle.entry_cells.specs.Rule.{Sound, opener};

    ghost holds = { λ about. Sound T.legal T.stands T.touches J.opening J.list about.cells about.actors (J.opening about.journal.value) };

    ghost first = { λ about. opener (J.opening about.journal.value) (J.list about.journal.value) about.cells about.actors };
}

pub(crate) type Board<T, J> = Shared<
    Option<Lodged<T, J>>,
    View<<J as Journal>::Opening, <J as Journal>::Entry>,
    About<J>,
    Law<T, J>,
>;

pub(crate) type Place<T, J> = Seat<
    Option<Lodged<T, J>>,
    View<<J as Journal>::Opening, <J as Journal>::Entry>,
>;

pub(crate) type Cabinet<T, J> = Table<
    Option<Lodged<T, J>>,
    View<<J as Journal>::Opening, <J as Journal>::Entry>,
    About<J>,
    Law<T, J>,
    Global,
>;
