//! The smallest use of cells, for tests: a journal whose entries each name a cell, and values that count the entries of
//! their cells. It stands beside the tests, since wrong bodies are tried on code that isn't a test's.
ghost use Rattle.std.specs.Prelude.{◌≡◌, ◌<◌, ◌++◌, ◌∷◌, []};
ghost use Rattle.std.specs.Bool.{OnTrue, OnFalse};
ghost use Rattle.entry_cells.specs.Counting.{named, IsFree, HoldsOnly};

use crate::journal::{Journal, Kept};
use crate::table::{Cells, Pass, Taken};

#[derive(Drop)]
pub(crate) struct Log {
    pub(crate) cells: u32,
    // Pairs of actor and cell.
    pub(crate) list: Vec<(u32, u32)>,
}

impl Journal for Log {
    type Opening = u32;

    type Entry = u32;

    ghost opening = { λ j. j.cells };

    ghost list = { λ j. j.list.items };
}

#[derive(Drop)]
pub(crate) struct Count {
    pub(crate) entries: u64,
}

impl Kept<Log> for Count {
    ghost use Rattle.std.specs.Prelude.{◌≡◌};
    ghost use Rattle.entry_cells.specs.Counting.{named, AreInside, Names, inside_prefix, named_untouched};

    ghost legal = { AreInside };

    ghost stands = { λ k c xs x. x.entries ≡ named k xs };

    ghost touches = { Names };

    ghost legal_prefix = { inside_prefix };

    ghost untouched_stands = { λ k c xs ys x legal free is. named_untouched k c xs ys x.entries free is };
}

// Adds an entry of the actor at a cell, where no other pass holds the cell or the journal and there is memory.
pub(crate) fn add(
    cells: &Cells<Count, Log>,
    pass: &mut Pass<Count, Log>,
    actor: u32,
    cell: u32,
) -> bool
    requires pass { IsFree cells.now actor pass.old }
    requires exists { (cell < cells.now.cells) × (cell < cells.now.opening) }
    ensures pass { IsFree cells.now actor pass.new }
    ensures added { OnTrue result (pass.new.view.mine ≡ pass.old.view.mine ++ cell ∷ []) }
    ensures same { OnFalse result (pass.new.view.mine ≡ pass.old.view.mine) }
{
    let Ok(mut taken) = cells.try_take(pass, cell) else {
        return false;
    };
    let added = add_held(cells, pass, actor, &mut taken);
    cells.give(pass, taken);
    added
}

// The same once the cell is taken.
fn add_held(
    cells: &Cells<Count, Log>,
    pass: &mut Pass<Count, Log>,
    actor: u32,
    taken: &mut Taken<Count>,
) -> bool
    requires pass { HoldsOnly cells.now actor taken.old.cell pass.old }
    requires exists { (taken.old.cell < cells.now.cells) × (taken.old.cell < cells.now.opening) }
    requires stands { taken.old.value.entries ≡ named taken.old.cell pass.old.view.seen }
    ensures pass { HoldsOnly cells.now actor taken.old.cell pass.new }
    ensures cell { taken.new.cell ≡ taken.old.cell }
    ensures stands { taken.new.value.entries ≡ named taken.old.cell pass.new.view.seen }
    ensures added { OnTrue result (pass.new.view.mine ≡ pass.old.view.mine ++ taken.old.cell ∷ []) }
    ensures same { OnFalse result (pass.new.view.mine ≡ pass.old.view.mine) }
{
    let Ok(mut journal) = cells.try_journal(pass) else {
        return false;
    };
    let added = enter(&mut journal, &mut taken.value, actor, taken.cell);
    cells.give_journal(pass, journal);
    added
}

// Adds an entry to the journal and counts it, where there is memory.
fn enter(journal: &mut Log, count: &mut Count, actor: u32, cell: u32) -> bool
    requires { count.old.entries ≡ named cell journal.old.list.items }
    ensures cells { journal.new.cells ≡ journal.old.cells }
    ensures added { OnTrue result (journal.new.list.items ≡ journal.old.list.items ++ (actor, cell) ∷ []) }
    ensures same { OnFalse result (journal.new.list.items ≡ journal.old.list.items) }
    ensures counted { count.new.entries ≡ named cell journal.new.list.items }
{
    if journal.list.push((actor, cell)).is_err() {
        return false;
    }
    count.entries += 1;
    true
}
