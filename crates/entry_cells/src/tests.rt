//! Passes of two actors, on one thread and on two.
ghost use Rattle.std.specs.Prelude.{◌≡◌, ◌<◌, ℕ, [], ◌∷◌, length, IfOk};
ghost use mathlib.Core.Option.{some};
ghost use lib.ListN.{get_elem?};
ghost use Rattle.entry_cells.specs.Passes.{AreNew};
ghost use Rattle.entry_cells.specs.Counting.{IsFree};

use crate::table::{Cells, Pass};
use crate::tally::{Count, Log, add};
use std::alloc::{AllocError, Global};
use std::sync::Wait;
use std::test::Fail;
use std::thread;

// Counts of no entries.
fn zeros(alloc: Global, count: u32) -> Result<Vec<Count>, AllocError>
    ensures count { IfOk result (λ v. length v.items ≡ count) }
    ensures zero { IfOk result (λ v. (k : ℕ) (x : Count) → get_elem? v.items k ≡ some x → x.entries ≡ 0) }
{
    let mut counts = Vec::with_capacity(alloc, count as usize)?;
    'counts: for _ in 0..count {
        counts.push_reserved(Count { entries: 0 });
    }
    Ok(counts)
}

// So many cells, an empty journal that has room for `room` entries, and the passes of the actors 1 and 2.
fn cells_for_two(
    alloc: Global,
    count: u32,
    room: usize,
) -> Result<(Cells<Count, Log>, Pass<Count, Log>, Pass<Count, Log>), AllocError>
    requires few { count < 4294967295 }
    ensures cells { IfOk result (λ r. (r.0.cells ≡ count) × (r.0.actors ≡ 2) × (r.0.opening ≡ count)) }
    ensures first { IfOk result (λ r. IsFree r.0 1 r.1) }
    ensures second { IfOk result (λ r. IsFree r.0 2 r.2) }
{
    let log = Log {
        cells: count,
        list: Vec::with_capacity(alloc, room)?,
    };
    let (cells, mut passes) = Cells::build(alloc, zeros(alloc, count)?, log, 2)?;
    let Some(second) = passes.pop() else {
        unreachable!()
    };
    let Some(first) = passes.pop() else {
        unreachable!()
    };
    Ok((cells, first, second))
}

#[test]
fn thirty_two_actors_have_a_pass_each(rt: HostRuntime) -> Result<(), Fail> {
    let log = Log {
        cells: 4,
        list: Vec::with_capacity(rt.alloc(), 0)?,
    };
    let (_, passes) = Cells::build(rt.alloc(), zeros(rt.alloc(), 4)?, log, 32)?;
    assert!(rt; passes.len() == 32);
    Ok(())
}

#[test]
fn a_cell_is_taken_by_one_pass_at_a_time(rt: HostRuntime) -> Result<(), Fail> {
    let (cells, mut first, mut second) = cells_for_two(rt.alloc(), 2, 0)?;
    let Ok(taken) = cells.try_take(&mut first, 0) else {
        panic!(rt; "cell 0 is at home")
    };
    let Err(held) = cells.try_take(&mut second, 0) else {
        panic!(rt; "cell 0 is taken")
    };
    assert!(rt; held.holder == 1);
    let Ok(other) = cells.try_take(&mut second, 1) else {
        panic!(rt; "cell 1 is at home")
    };
    cells.give(&mut first, taken);
    let Ok(again) = cells.try_take(&mut second, 0) else {
        panic!(rt; "cell 0 is at home again")
    };
    assert!(rt; again.value.entries == 0 && other.value.entries == 0);
    Ok(())
}

// Tries until an entry at the cell is added.
fn add_one<R: Wait>(
    rt: &R,
    cells: &Cells<Count, Log>,
    pass: &mut Pass<Count, Log>,
    actor: u32,
    cell: u32,
)
    requires pass { IsFree cells.now actor pass.old }
    requires exists { (cell < cells.now.cells) × (cell < cells.now.opening) }
    ensures { IsFree cells.now actor pass.new }
{
    'tries: for _ in rt.forever() {
        if add(cells, pass, actor, cell) {
            break;
        }
    }
}

// Adds 1,000 entries at the cells in turn.
fn add_all<R: Wait>(
    rt: &R,
    cells: &Cells<Count, Log>,
    mut pass: Pass<Count, Log>,
    actor: u32,
) -> Pass<Count, Log>
    requires pass { IsFree cells.now actor pass }
    requires three { (cells.now.cells ≡ 3) × (cells.now.opening ≡ 3) }
    ensures { IsFree cells.now actor result }
{
    'turns: for turn in 0..1000u32 {
        add_one(rt, cells, &mut pass, actor, turn % 3);
    }
    pass
}

// The two passes as a list.
fn both(
    alloc: Global,
    first: Pass<Count, Log>,
    second: Pass<Count, Log>,
) -> Result<Vec<Pass<Count, Log>>, AllocError>
    ensures { IfOk result (λ v. v.items ≡ first ∷ second ∷ []) }
{
    let mut passes = Vec::with_capacity(alloc, 2)?;
    passes.push_reserved(first);
    passes.push_reserved(second);
    Ok(passes)
}

// Whether the journal has 1,000 entries of the actor, at the cells in turn.
fn is_whole(journal: &Log, actor: u32) -> bool {
    let mut turn = 0u32;
    for entry in &journal.list {
        if entry.0 == actor {
            if turn >= 1000 || entry.1 != turn % 3 {
                return false;
            }
            turn += 1;
        }
    }
    turn == 1000
}

#[test]
fn threads_add_their_entries(rt: HostRuntime) -> Result<(), Fail> {
    let (cells, first, second) = cells_for_two(rt.alloc(), 3, 2000)?;
    let (first, second) = thread::join(
        &rt,
        || add_all(&rt, &cells, first, 1),
        || add_all(&rt, &cells, second, 2),
    );
    let (counts, journal) = cells.close(both(rt.alloc(), first, second)?)?;
    assert!(rt; journal.list.len() == 2000 && is_whole(&journal, 1) && is_whole(&journal, 2));
    assert!(rt; counts[0].entries == 668 && counts[1].entries == 666 && counts[2].entries == 666);
    Ok(())
}
