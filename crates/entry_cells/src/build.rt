//! Building: the values are laid into the slots, and the passes are made.
ghost use Rattle.std.specs.Prelude.{◌≡◌, ◌<◌, ◌+◌, ◌^◌, ◌++◌, ℕ, [], ◌∷◌, map, length, vec_len, IfOk, Some};
ghost use mathlib.Core.Option.{some};
ghost use lib.ListN.{get_elem?};
ghost use Rattle.entry_cells.specs.Views.{making, newcomer, opener};
ghost use Rattle.entry_cells.specs.Passes.{IsPassOf, AreNew};
ghost use Rattle.entry_cells.specs.declared.board.Lodged.TheVariants.{Cell, Journal as TheJournal};

use crate::board::{About, Lodged};
use crate::journal::{Journal, Kept};
use crate::plays::Make;
use crate::table::{Cells, Pass};
use atomic_table::Table;
use std::alloc::{AllocError, Global};
use std::snapshot::Snapshot;

// The values, and then the journal, as the slots have them.
fn lodge<T: Drop, J: Drop>(
    alloc: Global,
    homes: Vec<T>,
    journal: J,
) -> Result<Vec<Option<Lodged<T, J>>>, AllocError>
    requires few { vec_len homes < 4294967295 }
    ensures { IfOk result (λ v. v.items ≡ map (λ x. Some (Cell x)) homes.items ++ Some (TheJournal journal) ∷ []) }
{
    let mut slots = Vec::with_capacity(alloc, homes.len() + 1)?;
    'homes: for home in homes {
        slots.push_reserved(Some(Lodged::Cell(home)));
    }
    slots.push_reserved(Some(Lodged::Journal(journal)));
    Ok(slots)
}

impl<T: Kept<J>, J: Journal> Cells<T, J> {
    /// Cells with these values at home and with a journal that is empty, and a pass for each of the actors 1 to
    /// `actors`, in this order.
    ///
    /// # Errors
    /// `AllocError` where there is no memory. The values and the journal are dropped.
    pub fn build(
        alloc: Global,
        homes: Vec<T>,
        journal: J,
        actors: u32,
    ) -> Result<(Cells<T, J>, Vec<Pass<T, J>>), AllocError>
        requires empty { J.list journal ≡ [] }
        requires legal { T.legal (J.opening journal) [] }
        requires homes { (k : ℕ) (x : T) → get_elem? homes.items k ≡ some x → T.stands k (J.opening journal) [] x }
        requires actors { 0 < actors }
        requires few { vec_len homes < 4294967295 }
        ensures cells { IfOk result (λ r. (r.0.cells ≡ vec_len homes) × (r.0.actors ≡ actors) × (r.0.opening ≡ J.opening journal)) }
        ensures count { IfOk result (λ r. length r.1.items ≡ actors) }
        ensures passes { IfOk result (λ r. AreNew r.0 r.1.items) }
    {
        let (cells, first) = Cells::at_home(alloc, homes, journal, actors)?;
        let passes = cells.passes(first)?;
        Ok((cells, passes))
    }

    // The cells, and the pass of the first actor.
    fn at_home(
        alloc: Global,
        homes: Vec<T>,
        journal: J,
        actors: u32,
    ) -> Result<(Cells<T, J>, Pass<T, J>), AllocError>
        requires empty { J.list journal ≡ [] }
        requires legal { T.legal (J.opening journal) [] }
        requires homes { (k : ℕ) (x : T) → get_elem? homes.items k ≡ some x → T.stands k (J.opening journal) [] x }
        requires actors { 0 < actors }
        requires few { vec_len homes < 4294967295 }
        ensures cells { IfOk result (λ r. (r.0.cells ≡ vec_len homes) × (r.0.actors ≡ actors) × (r.0.opening ≡ J.opening journal)) }
        ensures first { IfOk result (λ r. r.1 ≡ record { table = r.0.table; view = opener (J.opening journal) [] (vec_len homes) actors }) }
    {
        let count = homes.len();
        let about = About {
            journal: Snapshot::of(&journal),
            cells: count,
            actors,
        };
        let slots = lodge(alloc, homes, journal)?;
        let words = Vec::from_elem(alloc, 0u64, count + 1)?;
        match Table::new(alloc, words.as_slice(), slots, &about) {
            Ok((table, seat)) => Ok((
                Cells {
                    table,
                    cells: count as u32,
                    actors,
                    alloc,
                },
                Pass { actor: 1, seat },
            )),
            Err(_) => Err(AllocError),
        }
    }

    // The passes of all actors.
    fn passes(&self, first: Pass<T, J>) -> Result<Vec<Pass<T, J>>, AllocError>
        requires { first ≡ record { table = self.now.table; view = opener self.now.opening [] self.now.cells self.now.actors } }
        ensures count { IfOk result (λ passes. length passes.items ≡ self.now.actors) }
        ensures new { IfOk result (λ passes. AreNew self.now passes.items) }
    {
        let mut passes = Vec::with_capacity(self.alloc, self.actors as usize)?;
        passes.push_reserved(first);
        let mut made = 1;
        'made: while made < self.actors {
            made += 1;
            let next = self.another(&mut passes[0], made);
            passes.push_reserved(next);
        }
        Ok(passes)
    }

    // The pass of the next actor, whose number is given.
    fn another(&self, first: &mut Pass<T, J>, actor: u32) -> Pass<T, J>
        requires pass { IsPassOf self.now first.old }
        requires first { (first.old.view.actor ≡ 1) × (first.old.view.seen ≡ []) }
        requires actor { (actor ≡ first.old.view.made + 1) × (first.old.view.made < self.now.actors) × (self.now.actors < 2 ^ 32) }
        ensures first { first.new ≡ record first.old { view = making first.old.view } }
        ensures made { result ≡ record { table = first.old.table; view = newcomer first.old.view } }
    {
        let seat = self.table.shared.split_seat::<Make>(&mut first.seat);
        Pass { actor, seat }
    }
}
