use crate::{NestedWalk, Walked, WordAddress};
use End::{Leaf, Npf, Open};
use snp_model::PageSize::{self, Large, Small};

// Where a walk ends, or that it doesn't.
#[derive(Clone, Copy, Debug, PartialEq, Eq)]
enum End {
    Leaf(u32, PageSize),
    Npf(u64),
    Open,
}

// The walk of a page number whose indexes are 4, 3, 2 and 1 reads a word of each of these tables.
#[test]
fn reads_the_tables_in_turn(rt: HostRuntime) {
    let mut walk = NestedWalk::start(1, 1024, 0x200C_0401, false, true, false);
    for (word, frame, index) in [
        (0x2007, 1, 4),
        (0x3087, 2, 3),
        (0xFFFF_0000_0000_4007, 3, 2),
    ] {
        assert_eq!(rt; walk.needs(), WordAddress { frame, index });
        match walk.feed(word) {
            Walked::More(next) => walk = next,
            _ => assert!(rt; false),
        }
    }
    assert_eq!(rt; walk.needs(), WordAddress { frame: 4, index: 1 });
    assert_eq!(rt;
        walk.feed(0x8087),
        Walked::Leaf {
            frame: 8,
            size: PageSize::Small
        }
    );
}

const READ: [bool; 3] = [false, true, false];

const WRITE: [bool; 3] = [true, true, false];

const TABLE: [bool; 3] = [false, true, true];

const SHARED_READ: [bool; 3] = [false, false, false];

const SHARED_WRITE: [bool; 3] = [true, false, false];

// Page numbers, what the access does, the words of the tables from level 4 on, and the end.
#[test]
fn ends_as_the_entries_say(rt: HostRuntime) {
    let cases = [
        // Leaves of 4 KB and of 2 MB: the latter keeps the page's place in it.
        (0, WRITE, [0x2007, 0x3007, 0x4007, 0x8007], Leaf(8, Small)),
        (8, READ, [0x2007, 0x3007, 0x87, 0], Leaf(8, Large)),
        (
            0x401,
            READ,
            [0x2007, 0x3007, 0x20_1087, 0],
            Leaf(513, Large),
        ),
        // Not present, at the last level and at the first.
        (1, READ, [0x2007, 0x3007, 0x4007, 0], Npf(0x5_0000_0004)),
        (
            1,
            WRITE,
            [0x2007, 0x3007, 0x4007, 0x8006],
            Npf(0x5_0000_0006),
        ),
        (1, TABLE, [0x2007, 0x3007, 0x4007, 0], Npf(0x6_0000_0006)),
        (1, SHARED_READ, [0, 0, 0, 0], Npf(0x1_0000_0004)),
        (1, SHARED_WRITE, [0, 0, 0, 0], Npf(0x1_0000_0006)),
        // Outside a memory of 1025 frames: a page of 4 KB, a table, and a page of 2 MB by its place.
        (
            0,
            READ,
            [0x2007, 0x3007, 0x4007, 0x40_1007],
            Npf(0x5_0000_0004),
        ),
        (
            0,
            READ,
            [0x2007, 0x3007, 0x4007, 0x40_0007],
            Leaf(1024, Small),
        ),
        (0, READ, [0x2007, 0x40_1007, 0, 0], Npf(0x5_0000_0004)),
        (1, READ, [0x2007, 0x3007, 0x40_0087, 0], Npf(0x5_0000_0004)),
        (0, READ, [0x2007, 0x3007, 0x40_1087, 0], Leaf(1024, Large)),
        // Not a user's.
        (0, READ, [0x2007, 0x3003, 0, 0], Npf(0x5_0000_0005)),
        (
            0,
            WRITE,
            [0x2007, 0x3007, 0x4007, 0x8003],
            Npf(0x5_0000_0007),
        ),
        (0, SHARED_READ, [0x2003, 0, 0, 0], Npf(0x1_0000_0005)),
        // Not writable: it stops a write and the address of a guest's table, and no read.
        (0, WRITE, [0x2007, 0x3005, 0, 0], Npf(0x5_0000_0007)),
        (0, WRITE, [0x2007, 0x3007, 0x85, 0], Npf(0x5_0000_0007)),
        (0, SHARED_WRITE, [0x2005, 0, 0, 0], Npf(0x1_0000_0007)),
        (
            1,
            TABLE,
            [0x2007, 0x3007, 0x4007, 0x9005],
            Npf(0x6_0000_0007),
        ),
        (0, READ, [0x2005, 0x3005, 0x4005, 0x8005], Leaf(8, Small)),
        (0, TABLE, [0x2007, 0x3007, 0x4007, 0x8007], Leaf(8, Small)),
    ];
    for (gpn, [write, private, table], words, end) in cases {
        assert!(rt; gpn < 1 << 36);
        let walk = NestedWalk::start(1, 1025, gpn, write, private, table);
        assert_eq!(rt;
            end_of(walk, &words),
            end,
            "page {gpn}, write {write}, private {private}, table {table}: {words:?}"
        );
    }
}

// Where a walk ends that is fed with these words.
fn end_of(walk: NestedWalk, words: &[u64]) -> End {
    let mut walk = walk;
    for word in words {
        match walk.feed(*word) {
            Walked::More(next) => walk = next,
            Walked::Leaf { frame, size } => return Leaf(frame, size),
            Walked::Npf(code) => return Npf(code),
        }
    }
    Open
}
