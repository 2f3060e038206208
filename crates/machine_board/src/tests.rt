//! The smallest scenario, event by event, on a board and on one under a lock.

use crate::{Board, BoardPass, LockedBoard};
use outside_port::Steps;
use scenario_text::read_scenario;
use snp_model::{Deed, Event, Outcome};
use std::alloc::Global;
use std::process::Abort;
use std::test::Fail;

// A guest's processor stores a word and loads it again.
const SMALLEST: &str =
    "snp 1\nregions 1\nguest 1 opened asid 1 iv 0 key 0000000000000000000000000000000000000000000000000000000000000000\npage 8 of 1 at 0 4k valid 0 0 0\nword 1 0 0x2007\nword 2 0 0x3007\nword 3 0 0x4007\nword 4 0 0x8007\nactor 1 cpu 1 vmpl 0 npt 1 flat\nstore 0x10 5\nload 0x10\nend\n";

fn smallest(alloc: Global) -> Result<Board, Fail> {
    let scenario = read_scenario(alloc, SMALLEST.as_bytes())?;
    Ok(Board::build(alloc, &scenario)?)
}

// Actor 1's next event is this one.
fn check_event(
    rt: &impl Abort,
    board: &mut Board,
    item: u32,
    deed: Deed,
    outcome: Option<Outcome>,
) {
    assert!(rt; !board.finished(1));
    let event = Event {
        item,
        attempt: 0,
        deed,
        outcome,
    };
    assert!(rt; board.step(1) == event);
}

// Its next six events are those of an access: a word of each level of the nested tables, and then its own.
fn check_access(rt: &impl Abort, board: &mut Board, item: u32, outcome: Outcome) {
    check_event(rt, board, item, Deed::Begin, None);
    for (frame, value) in [(1, 0x2007), (2, 0x3007), (3, 0x4007), (4, 0x8007)] {
        let nested = Deed::Nested {
            frame,
            index: 0,
            value,
        };
        check_event(rt, board, item, nested, None);
    }
    let access = Deed::Access {
        gpn: 0,
        index: 2,
        frame: 8,
        private: true,
    };
    check_event(rt, board, item, access, Some(outcome));
}

// What is answered of an actor with so many items that is finished.
fn idle(items: u32) -> Event {
    Event {
        item: items,
        attempt: 0,
        deed: Deed::Control,
        outcome: None,
    }
}

#[test]
fn a_board_steps_its_actor_until_it_is_finished(rt: HostRuntime) -> Result<(), Fail> {
    let mut board = smallest(rt.alloc())?;
    check_access(&rt, &mut board, 0, Outcome::Stored);
    check_access(&rt, &mut board, 1, Outcome::Loaded(5));
    assert!(rt; board.finished(1));
    assert!(rt; board.one(1) == idle(2));
    assert!(rt; board.one(2) == idle(0));
    assert!(rt; board.journal().len() == 12);
    Ok(())
}

#[test]
fn a_locked_board_is_stepped_and_finished(rt: HostRuntime) -> Result<(), Fail> {
    let locked = LockedBoard::over(smallest(rt.alloc())?);
    let mut pass = BoardPass::new(1);
    let first = locked.one(&rt, &mut pass);
    let finished = locked.finished(&rt, &pass);
    let mut board = locked.end();
    assert!(rt; first.is_ok() && !finished);
    board.finish();
    assert!(rt; board.finished(1) && board.journal().len() == 12);
    Ok(())
}
