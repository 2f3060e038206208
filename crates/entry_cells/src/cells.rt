//! Taking and giving. Each call tries once.
ghost use Rattle.std.specs.Prelude.{◌≡◌, ◌≢◌, ◌<◌, ◌≤◌, ◌++◌, List, IfOk, IfErr, OnOk};
ghost use Rattle.entry_cells.specs.Entries.{entries_of, all_of};
ghost use Rattle.entry_cells.specs.Views.{Holds, Grows, Adds, took, refused, gave, gave_journal};
ghost use Rattle.entry_cells.specs.Passes.{IsPassOf};

use crate::board::Lodged;
use crate::journal::{Journal, Kept};
use crate::steps::{give_word, take_word};
use crate::table::{Cells, Held, Pass, Taken};

impl<T: Kept<J>, J: Journal> Cells<T, J> {
    /// Takes the value of a cell, in one atomic step. The pass has then seen the whole journal, and nothing that it
    /// had not seen before touches a cell that it held.
    ///
    /// # Errors
    /// `Held` where another of the passes holds the cell. The pass keeps this as its last refusal.
    pub fn try_take(&self, pass: &mut Pass<T, J>, cell: u32) -> Result<Taken<T>, Held>
        requires pass { IsPassOf self.now pass.old }
        requires exists { cell < self.now.cells }
        requires lacks { Holds pass.old.view cell → ⊥ }
        ensures table { pass.new.table ≡ pass.old.table }
        ensures held { IfErr result (λ h. (pass.new.view ≡ refused pass.old.view cell h.holder) × (0 < h.holder) × (h.holder ≢ pass.old.view.actor)) }
        ensures made { IfErr result (λ h. h.holder ≤ self.now.actors) }
        ensures taken { IfOk result (λ t. (t.cell ≡ cell) × (pass.new.view ≡ took pass.old.view cell pass.new.view.seen)) }
        ensures holds { OnOk result (Holds pass.new.view cell) }
        ensures grows { OnOk result (Grows T.touches self.now.cells self.now.opening pass.old.view pass.new.view.seen) }
        ensures legal { OnOk result (T.legal self.now.opening pass.new.view.seen) }
        ensures stands { IfOk result (λ t. T.stands cell self.now.opening pass.new.view.seen t.value) }
        ensures own { entries_of pass.new.view.actor pass.new.view.seen ≡ pass.new.view.mine }
    {
        match take_word(
            &self.table.shared,
            &mut pass.seat,
            cell as usize,
            pass.actor,
        ) {
            Ok(Lodged::Cell(value)) => Ok(Taken { cell, value }),
            Ok(Lodged::Journal(_)) => unreachable!(),
            Err(holder) => Err(Held { holder }),
        }
    }

    /// Gives back a value, which has to be its cell's part of what the pass has seen.
    pub fn give(&self, pass: &mut Pass<T, J>, taken: Taken<T>)
        requires pass { IsPassOf self.now pass.old }
        requires exists { taken.cell < self.now.cells }
        requires holds { Holds pass.old.view taken.cell }
        requires stands { T.stands taken.cell self.now.opening pass.old.view.seen taken.value }
        ensures given { pass.new ≡ record pass.old { view = gave pass.old.view taken.cell } }
        ensures own { entries_of pass.new.view.actor pass.new.view.seen ≡ pass.new.view.mine }
    {
        let Taken { cell, value } = taken;
        give_word(
            &self.table.shared,
            &mut pass.seat,
            cell as usize,
            Lodged::Cell(value),
        );
    }

    /// Takes the journal, in one atomic step.
    ///
    /// # Errors
    /// `Held` where another of the passes holds it. The pass keeps this as its last refusal.
    pub fn try_journal(&self, pass: &mut Pass<T, J>) -> Result<J, Held>
        requires pass { IsPassOf self.now pass.old }
        requires lacks { Holds pass.old.view self.now.cells → ⊥ }
        ensures table { pass.new.table ≡ pass.old.table }
        ensures held { IfErr result (λ h. (pass.new.view ≡ refused pass.old.view self.now.cells h.holder) × (0 < h.holder) × (h.holder ≢ pass.old.view.actor)) }
        ensures made { IfErr result (λ h. h.holder ≤ self.now.actors) }
        ensures taken { OnOk result (pass.new.view ≡ took pass.old.view self.now.cells pass.new.view.seen) }
        ensures holds { OnOk result (Holds pass.new.view self.now.cells) }
        ensures grows { OnOk result (Grows T.touches self.now.cells self.now.opening pass.old.view pass.new.view.seen) }
        ensures legal { OnOk result (T.legal self.now.opening pass.new.view.seen) }
        ensures journal { IfOk result (λ j. (J.opening j ≡ self.now.opening) × (J.list j ≡ pass.new.view.seen)) }
        ensures own { entries_of pass.new.view.actor pass.new.view.seen ≡ pass.new.view.mine }
    {
        match take_word(
            &self.table.shared,
            &mut pass.seat,
            self.cells as usize,
            pass.actor,
        ) {
            Ok(Lodged::Journal(journal)) => Ok(journal),
            Ok(Lodged::Cell(_)) => unreachable!(),
            Err(holder) => Err(Held { holder }),
        }
    }

    /// Gives back the journal, to which the pass may have added entries that touch only cells that it holds.
    pub fn give_journal(&self, pass: &mut Pass<T, J>, journal: J)
        requires pass { IsPassOf self.now pass.old }
        requires holds { Holds pass.old.view self.now.cells }
        requires opening { J.opening journal ≡ self.now.opening }
        requires legal { T.legal self.now.opening (J.list journal) }
        requires adds { Adds T.touches self.now.cells self.now.opening pass.old.view (J.list journal) }
        ensures given { pass.new ≡ record pass.old { view = gave_journal pass.old.view self.now.cells (J.list journal) } }
        ensures mine { (es : List J.Entry) → J.list journal ≡ pass.old.view.seen ++ all_of pass.old.view.actor es → pass.new.view.mine ≡ pass.old.view.mine ++ es }
        ensures own { entries_of pass.new.view.actor pass.new.view.seen ≡ pass.new.view.mine }
    {
        give_word(
            &self.table.shared,
            &mut pass.seat,
            self.cells as usize,
            Lodged::Journal(journal),
        );
    }
}
