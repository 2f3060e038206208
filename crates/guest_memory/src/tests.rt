//! Events of reports, by hand, with the answers that the rules of a guest's memory give.

ghost use Rattle.std.specs.Prelude.{◌↔◌, IsTrue};
ghost use Rattle.guest_memory.specs.Answers.{IsInRange};

use crate::{ApplyFault, GuestMemory};
use scenario_text::read_scenario;
use snp_model::PageSize::{Large, Small};
use snp_model::{Deed, Event, Item, Op, Outcome, PageSize};
use std::alloc::Global;
use std::test::Fail;

// Guest 1 opens with pages 0, 1 and 4: frame 8, whose word 2 is 7, and frames 9 and 12, which have an entry each. Page 2 isn't
// validated, and page 3 is guest 2's.
const OPENING: &str =
    "snp 1\nregions 1\nguest 1 opened asid 1 iv 0 key 0000000000000000000000000000000000000000000000000000000000000000\nguest 2 opened asid 2 iv 0 key 0000000000000000000000000000000000000000000000000000000000000000\npage 8 of 1 at 0 4k valid 0 0 0\npage 9 of 1 at 1 4k valid 0 0 0\npage 10 of 1 at 2 4k invalid 0 0 0\npage 11 of 2 at 3 4k valid 0 0 0\npage 12 of 1 at 4 4k valid 0 0 0\nword 8 2 6\nword 9 0 0x2003\nword 12 0 0x8000000000003\nword 8 2 7\nword 13 2 9\nend\n";

// Guest 1 opens with pages 0x400 to 0x5ff: frames 512 to 1023, which are a page of 2 MB. A word of its first frame and one of its
// last aren't 0.
const LARGE_OPENING: &str =
    "snp 1\nregions 2\nguest 1 opened asid 1 iv 0 key 0000000000000000000000000000000000000000000000000000000000000000\npage 512 of 1 at 0x400 2m valid 0 0 0\nword 512 0 3\nword 1023 511 6\nend\n";

// Two guests. Guest 1 opens with page 0, which is frame 8, and guest 2 with no page: its page 1, frame 9, isn't validated yet.
const TWO_GUESTS: &str =
    "snp 1\nregions 1\nguest 1 opened asid 1 iv 0 key 0000000000000000000000000000000000000000000000000000000000000000\nguest 2 opened asid 2 iv 0 key 0000000000000000000000000000000000000000000000000000000000000000\npage 8 of 1 at 0 4k valid 0 0 0\npage 9 of 2 at 1 4k invalid 0 0 0\nend\n";

// What an event is answered.
#[derive(Clone, Copy, Debug, PartialEq, Eq)]
enum Answer {
    Made,
    NotLegal { expected: Option<u64>, found: u64 },
    NoMemory,
}

const MADE: Answer = Answer::Made;

// The answer where the page isn't held.
fn not_held(found: u64) -> Answer {
    Answer::NotLegal {
        expected: None,
        found,
    }
}

fn opened(alloc: Global) -> Result<GuestMemory, Fail> {
    let scenario = read_scenario(alloc, OPENING.as_bytes())?;
    Ok(GuestMemory::build(alloc, &scenario, 1)?)
}

fn other(expected: u64, found: u64) -> Answer {
    Answer::NotLegal {
        expected: Some(expected),
        found,
    }
}

fn event(deed: Deed, outcome: Option<Outcome>) -> Event {
    Event {
        item: 0,
        attempt: 0,
        deed,
        outcome,
    }
}

// An event in the middle of an attempt.
fn step(deed: Deed) -> Event {
    event(deed, None)
}

fn table(gpn: u64, index: u16, frame: u32, value: Option<u64>) -> Deed {
    Deed::Table {
        gpn,
        index,
        frame,
        value,
    }
}

fn data(gpn: u64, index: u16, frame: u32, private: bool) -> Deed {
    Deed::Access {
        gpn,
        index,
        frame,
        private,
    }
}

// A private access that ended.
fn private(gpn: u64, index: u16, frame: u32, outcome: Outcome) -> Event {
    event(data(gpn, index, frame, true), Some(outcome))
}

// A shared one.
fn shared(gpn: u64, index: u16, outcome: Outcome) -> Event {
    event(data(gpn, index, 13, false), Some(outcome))
}

// A PVALIDATE's commit, with its carry flag.
fn commit(gpn: u64, size: PageSize, carry: bool) -> Event {
    event(
        Deed::Commit {
            frame: 9,
            gpn,
            size,
        },
        Some(Outcome::Carry(carry)),
    )
}

fn access(op: Op) -> Item {
    Item::Access { address: 0x10, op }
}

fn pvalidate(size: PageSize, validate: bool) -> Item {
    Item::Pvalidate {
        address: 0,
        size,
        validate,
    }
}

fn store(value: u64) -> Item {
    access(Op::Store(value))
}

fn compare(expected: u64, next: u64) -> Item {
    access(Op::Compare { expected, next })
}

fn swap(word: u64) -> Outcome {
    Outcome::Swapped(word)
}

fn load(word: u64) -> Outcome {
    Outcome::Loaded(word)
}

fn cas(found: u64, written: bool) -> Outcome {
    Outcome::Compared { found, written }
}

const LOAD: Op = Op::Load;

const STORED: Outcome = Outcome::Stored;

const NPF: Outcome = Outcome::Npf(0x580000005);

// Whether the numbers of a deed are in range.
fn is_in_range(deed: &Deed) -> bool
    ensures { IsTrue result ↔ IsInRange deed.now }
{
    match deed {
        Deed::Table { gpn, index, .. } => *gpn < 1 << 36 && *index < 512,
        Deed::Access { gpn, index, .. } => *gpn < 1 << 36 && *index < 512,
        Deed::Commit { gpn, .. } => *gpn < 1 << 36,
        Deed::Begin
        | Deed::Nested { .. }
        | Deed::Host { .. }
        | Deed::Lock { .. }
        | Deed::LockContext { .. }
        | Deed::Compute
        | Deed::CommitContext { .. }
        | Deed::Control => true,
    }
}

// The answer to an event.
fn told(applied: Result<(), ApplyFault>) -> Answer {
    match applied {
        Ok(()) => Answer::Made,
        Err(ApplyFault::NotLegal { expected, found }) => Answer::NotLegal { expected, found },
        Err(ApplyFault::Memory(_)) => Answer::NoMemory,
    }
}

// The smallest scenario, exchanges, and a page that is remapped between two loads.
#[test]
fn words(rt: HostRuntime) -> Result<(), Fail> {
    let mut memory = opened(rt.alloc())?;
    let cases = [
        // A load gives the opening's word. Another one isn't legal, and leaves it.
        (private(0, 2, 8, load(6)), access(LOAD), other(7, 6)),
        (private(0, 3, 8, load(7)), access(LOAD), other(0, 7)),
        (private(0, 2, 8, load(7)), access(LOAD), MADE),
        // A store, and the load behind it.
        (private(0, 2, 8, STORED), store(5), MADE),
        (private(0, 2, 8, load(6)), access(LOAD), other(5, 6)),
        (private(0, 2, 8, load(5)), access(LOAD), MADE),
        // A swap, two compares of which the first writes, an exclusive or, and a load.
        (private(0, 2, 8, swap(0)), access(Op::Swap(5)), other(5, 0)),
        (private(0, 2, 8, swap(5)), access(Op::Swap(9)), MADE),
        (private(0, 2, 8, cas(9, true)), compare(9, 6), MADE),
        (private(0, 2, 8, cas(6, false)), compare(9, 7), MADE),
        (private(0, 2, 8, cas(9, true)), compare(9, 7), other(6, 9)),
        (private(0, 2, 8, swap(6)), access(Op::Xor(3)), MADE),
        (private(0, 2, 8, load(5)), access(LOAD), MADE),
        // A load of a page that was remapped faults, and a shared access goes anywhere.
        (private(0, 2, 9, NPF), access(LOAD), MADE),
        (shared(0, 2, load(1)), access(LOAD), MADE),
        (step(data(0, 2, 8, true)), access(LOAD), MADE),
        // Pages that aren't held: one that wasn't validated, another guest's, and the host's.
        (private(2, 2, 10, load(3)), access(LOAD), not_held(3)),
        (private(3, 2, 11, STORED), store(8), not_held(0)),
        (private(5, 2, 13, swap(9)), access(Op::Swap(8)), not_held(9)),
        (private(5, 2, 13, cas(9, false)), compare(8, 7), not_held(9)),
        (private(0, 2, 8, load(5)), access(LOAD), MADE),
        // Reads of a guest's tables, of which the last one is refused, and a forged entry.
        (step(table(1, 0, 9, Some(0x2003))), access(LOAD), MADE),
        (step(table(4, 0, 13, None)), access(LOAD), MADE),
        (event(table(4, 0, 13, None), Some(NPF)), access(LOAD), MADE),
        (
            step(table(4, 0, 12, Some(3))),
            store(1),
            other(0x8000000000003, 3),
        ),
        (
            event(table(4, 1, 12, Some(0)), Some(Outcome::Pf(0))),
            access(LOAD),
            MADE,
        ),
        (
            event(table(4, 0, 12, Some(3)), Some(Outcome::Pf(0))),
            access(LOAD),
            other(0x8000000000003, 3),
        ),
        (step(table(5, 0, 13, Some(3))), access(LOAD), not_held(3)),
    ];
    for (event, item, want) in cases {
        assert!(rt; is_in_range(&event.deed));
        assert_eq!(rt; told(memory.apply(&event, &item)), want, "{event:?}");
    }
    Ok(())
}

// A hypervisor gives another frame for page 0 and has the guest rescind that one: the guest still holds its page.
#[test]
fn decoy(rt: HostRuntime) -> Result<(), Fail> {
    let mut memory = opened(rt.alloc())?;
    let cases = [
        (commit(0, Small, true), pvalidate(Small, false), true),
        (commit(0, Small, false), pvalidate(Small, true), true),
        (commit(0, Small, false), pvalidate(Small, false), false),
        (commit(0, Small, true), pvalidate(Small, true), false),
        (commit(0, Large, false), pvalidate(Large, true), true),
        (commit(0, Small, false), pvalidate(Large, false), true),
        (commit(0, Large, false), pvalidate(Large, false), false),
    ];
    assert!(rt; memory.held(0));
    for (event, item, held) in cases {
        assert!(rt; is_in_range(&event.deed));
        assert_eq!(rt; told(memory.apply(&event, &item)), MADE, "{event:?}");
        assert_eq!(rt; memory.held(0), held, "{event:?}");
    }
    Ok(())
}

// The run of tests/cases/guest_that_validates_what_it_holds. Guest 1 validates a page that it holds, whose frame is another one by
// now; its memory forgets the page's words, and the old frame's word isn't legal once the guest has stored to the new one.
// Guest 2 doesn't validate what it holds, and each of its accesses is legal.
#[test]
fn validation_of_a_held_page(rt: HostRuntime) -> Result<(), Fail> {
    let scenario = read_scenario(rt.alloc(), TWO_GUESTS.as_bytes())?;
    let mut memory = GuestMemory::build(rt.alloc(), &scenario, 1)?;
    let cases = [
        (private(0, 0, 8, STORED), store(1), MADE),
        (private(0, 0, 8, load(1)), access(LOAD), MADE),
        (commit(0, Small, false), pvalidate(Small, true), MADE),
        (private(0, 0, 10, load(0xbad)), access(LOAD), MADE),
        (private(0, 0, 10, STORED), store(2), MADE),
        (private(0, 0, 8, load(1)), access(LOAD), other(2, 1)),
    ];
    for (event, item, want) in cases {
        assert!(rt; is_in_range(&event.deed));
        assert_eq!(rt; told(memory.apply(&event, &item)), want, "{event:?}");
    }
    let mut memory = GuestMemory::build(rt.alloc(), &scenario, 2)?;
    let cases = [
        (commit(1, Small, false), pvalidate(Small, true)),
        (private(1, 0, 9, STORED), store(3)),
        (private(1, 0, 9, load(3)), access(LOAD)),
        (private(0, 0, 8, NPF), access(LOAD)),
        (
            event(Deed::Lock { frame: 8 }, Some(NPF)),
            pvalidate(Small, true),
        ),
        (private(1, 0, 10, NPF), access(LOAD)),
        (private(1, 0, 9, swap(3)), access(Op::Swap(4))),
        (private(1, 0, 9, load(4)), access(LOAD)),
    ];
    for (event, item) in cases {
        assert!(rt; is_in_range(&event.deed));
        assert_eq!(rt; told(memory.apply(&event, &item)), MADE, "{event:?}");
    }
    Ok(())
}

// Pages that are accepted: no word of theirs is known until it was read or written.
#[test]
fn accepted(rt: HostRuntime) -> Result<(), Fail> {
    let mut memory = opened(rt.alloc())?;
    let large = pvalidate(Large, true);
    let cases = [
        (commit(0x200, Large, false), large, MADE),
        (private(0x200, 0, 512, load(4)), access(LOAD), MADE),
        (private(0x200, 0, 512, load(5)), access(LOAD), other(4, 5)),
        (private(0x3ff, 511, 1023, STORED), store(6), MADE),
        (
            private(0x3ff, 511, 1023, load(7)),
            access(LOAD),
            other(6, 7),
        ),
        (private(0x1ff, 0, 511, STORED), store(6), not_held(0)),
        (private(0x400, 0, 1024, STORED), store(6), not_held(0)),
        // A page that is accepted again has lost its words.
        (commit(0x200, Small, false), pvalidate(Small, true), MADE),
        (private(0x200, 0, 512, load(8)), access(LOAD), MADE),
        (private(0x200, 0, 512, load(4)), access(LOAD), other(8, 4)),
        (commit(0, Small, false), pvalidate(Small, true), MADE),
        (private(0, 2, 8, cas(9, false)), compare(8, 7), MADE),
        (private(0, 2, 8, load(7)), access(LOAD), other(9, 7)),
        // Both pages beside one that is rescinded stay.
        (commit(0x201, Small, false), pvalidate(Small, false), MADE),
        (private(0x200, 0, 512, load(8)), access(LOAD), MADE),
        (private(0x201, 0, 513, load(8)), access(LOAD), not_held(8)),
        (private(0x202, 0, 514, load(8)), access(LOAD), MADE),
    ];
    for (event, item, want) in cases {
        assert!(rt; is_in_range(&event.deed));
        assert_eq!(rt; told(memory.apply(&event, &item)), want, "{event:?}");
    }
    Ok(())
}

// Outcomes that can't belong to their items do nothing, whether the page is held or not.
#[test]
fn misfits(rt: HostRuntime) -> Result<(), Fail> {
    let mut memory = opened(rt.alloc())?;
    let carried = Outcome::Carry(false);
    for gpn in [0, 5] {
        assert!(rt; gpn < 1 << 36);
        let cases = [
            (private(gpn, 2, 8, load(1)), store(1)),
            (private(gpn, 2, 8, load(1)), pvalidate(Small, true)),
            (private(gpn, 2, 8, STORED), access(LOAD)),
            (private(gpn, 2, 8, STORED), compare(7, 1)),
            (private(gpn, 2, 8, swap(1)), store(1)),
            (private(gpn, 2, 8, swap(1)), compare(1, 1)),
            (private(gpn, 2, 8, cas(1, true)), access(Op::Swap(1))),
            (private(gpn, 2, 8, cas(1, false)), compare(1, 1)),
            (private(gpn, 2, 8, cas(1, true)), compare(2, 1)),
            (private(gpn, 2, 8, carried), access(LOAD)),
            (private(gpn, 2, 8, carried), pvalidate(Small, true)),
            (commit(gpn, Large, false), pvalidate(Small, true)),
            (commit(gpn, Small, false), pvalidate(Large, false)),
            (commit(gpn, Small, false), access(LOAD)),
            (event(table(gpn, 2, 8, Some(1)), Some(load(1))), store(1)),
        ];
        for (event, item) in cases {
            assert!(rt; is_in_range(&event.deed));
            assert_eq!(rt; told(memory.apply(&event, &item)), MADE, "{event:?}");
        }
    }
    assert!(rt; memory.held(0));
    assert!(rt; !memory.held(5));
    let kept = private(0, 2, 8, load(7));
    assert!(rt; is_in_range(&kept.deed));
    assert_eq!(rt; told(memory.apply(&kept, &access(LOAD))), MADE);
    Ok(())
}

// A page that is launched has its words, and what is held at the opening.
#[test]
fn launched(rt: HostRuntime) -> Result<(), Fail> {
    let mut memory = opened(rt.alloc())?;
    for (gpn, held) in [
        (0, true),
        (1, true),
        (2, false),
        (3, false),
        (4, true),
        (5, false),
    ] {
        assert_eq!(rt; memory.held(gpn), held, "{gpn}");
    }
    let mut words = [0; 512];
    words[511] = 3;
    assert!(rt; memory.launch(7, &words).is_ok());
    assert!(rt; memory.held(7));
    assert!(rt; !memory.held(8));
    let cases = [
        (private(7, 511, 20, load(3)), MADE),
        (private(7, 511, 20, load(0)), other(3, 0)),
        (private(7, 510, 20, load(3)), other(0, 3)),
        (private(0, 2, 8, load(7)), MADE),
    ];
    for (event, want) in cases {
        assert!(rt; is_in_range(&event.deed));
        assert_eq!(rt;
            told(memory.apply(&event, &access(LOAD))),
            want,
            "{event:?}"
        );
    }
    Ok(())
}

// The pages of a page of 2 MB are held at the opening, each with the words of its own frame.
#[test]
fn opened_large(rt: HostRuntime) -> Result<(), Fail> {
    let scenario = read_scenario(rt.alloc(), LARGE_OPENING.as_bytes())?;
    let mut memory = GuestMemory::build(rt.alloc(), &scenario, 1)?;
    let cases = [
        (private(0x400, 0, 512, load(3)), access(LOAD), MADE),
        (private(0x400, 511, 512, load(6)), access(LOAD), other(0, 6)),
        (private(0x401, 0, 513, load(3)), access(LOAD), other(0, 3)),
        (private(0x5ff, 511, 1023, load(6)), access(LOAD), MADE),
        (private(0x3ff, 0, 511, STORED), store(6), not_held(0)),
        (private(0x600, 0, 1024, STORED), store(6), not_held(0)),
        // Once one of them is rescinded, the ones beside it stay.
        (commit(0x401, Small, false), pvalidate(Small, false), MADE),
        (private(0x401, 0, 513, STORED), store(6), not_held(0)),
        (private(0x400, 0, 512, load(3)), access(LOAD), MADE),
        (private(0x402, 0, 514, load(0)), access(LOAD), MADE),
        // The whole page is rescinded.
        (commit(0x400, Large, false), pvalidate(Large, false), MADE),
        (private(0x400, 0, 512, STORED), store(6), not_held(0)),
        (private(0x5ff, 511, 1023, STORED), store(6), not_held(0)),
    ];
    for (event, item, want) in cases {
        assert!(rt; is_in_range(&event.deed));
        assert_eq!(rt; told(memory.apply(&event, &item)), want, "{event:?}");
    }
    Ok(())
}
