use crate::{GuestWalk, GuestWalked, GuestWord, NotCanonical};
use End::{Leaf, Open, Pf};
use snp_model::PageSize::{self, Large, Small};

// Where a walk ends, or that it doesn't.
#[derive(Clone, Copy, Debug, PartialEq, Eq)]
enum End {
    Leaf(u64, bool, PageSize),
    Pf(u64),
    Open,
}

// The walk of an address whose indexes are 4, 3, 2 and 1 reads a word of each of these tables.
#[test]
fn reads_the_tables_in_turn(rt: HostRuntime) -> Result<(), NotCanonical> {
    let mut walk = GuestWalk::start(4, 1, 0x200_C040_1FF8, false)?;
    for (word, gpn, index) in [
        (0x2003, 1, 4),
        (0x3081, 2, 3),
        (0x7FF7_FFFF_FFFF_F001, 3, 2),
    ] {
        assert_eq!(rt; walk.needs(), GuestWord { gpn, index });
        match walk.feed(word) {
            GuestWalked::More(next) => walk = next,
            _ => assert!(rt; false),
        }
    }
    assert_eq!(rt;
        walk.needs(),
        GuestWord {
            gpn: 0xF_FFFF_FFFF,
            index: 1
        }
    );
    assert_eq!(rt;
        walk.feed(0x8081),
        GuestWalked::Leaf {
            gpn: 8,
            private: false,
            size: PageSize::Small
        }
    );
    Ok(())
}

// With five levels the first index is of bits 56:48.
#[test]
fn reads_five_tables(rt: HostRuntime) -> Result<(), NotCanonical> {
    let mut walk = GuestWalk::start(5, 1, 0x5_0200_C040_1FF8, false)?;
    for (word, gpn, index) in [
        (0x2003, 1, 5),
        (0x3003, 2, 4),
        (0x4081, 3, 3),
        (0x5003, 4, 2),
    ] {
        assert_eq!(rt; walk.needs(), GuestWord { gpn, index });
        match walk.feed(word) {
            GuestWalked::More(next) => walk = next,
            _ => assert!(rt; false),
        }
    }
    assert_eq!(rt; walk.needs(), GuestWord { gpn: 5, index: 1 });
    assert_eq!(rt;
        walk.feed(0x8_0000_0000_9003),
        GuestWalked::Leaf {
            gpn: 9,
            private: true,
            size: PageSize::Small
        }
    );
    Ok(())
}

// Whether the access writes, the words of the tables from level 4 on, and the end, for an address with index 1 at
// level 1.
#[test]
fn ends_as_the_entries_say(rt: HostRuntime) -> Result<(), NotCanonical> {
    let cases = [
        // Private and shared leaves of 4 KB and of 2 MB: the latter keep the page's place in them.
        (
            false,
            [0x2003, 0x3003, 0x4003, 0x8_0000_0000_0003],
            Leaf(0, true, Small),
        ),
        (
            true,
            [0x2003, 0x3003, 0x4003, 0x8_0000_0000_9003],
            Leaf(9, true, Small),
        ),
        (false, [0x2003, 0x3003, 0x4003, 0x3], Leaf(0, false, Small)),
        (
            false,
            [0x2003, 0x3003, 0x8_0000_0020_1083, 0],
            Leaf(513, true, Large),
        ),
        (
            true,
            [0x2003, 0x3003, 0x20_1083, 0],
            Leaf(513, false, Large),
        ),
        (
            false,
            [0x2003, 0x3003, 0x4003, 0xFFFF_FFFF_FFFF_F001],
            Leaf(0xF_FFFF_FFFF, true, Small),
        ),
        // Not present.
        (false, [0x2003, 0x3003, 0x4003, 0], Pf(0)),
        (true, [0x2003, 0x3003, 0x4003, 0x8_0000_0000_0002], Pf(2)),
        (false, [0x2002, 0, 0, 0], Pf(0)),
        (true, [0x2003, 0x82, 0, 0], Pf(2)),
        // Not writable: it stops a write and no read.
        (true, [0x2003, 0x3003, 0x4003, 0x8_0000_0000_0001], Pf(3)),
        (true, [0x2001, 0, 0, 0], Pf(3)),
        (true, [0x2003, 0x3003, 0x81, 0], Pf(3)),
        (
            false,
            [0x2001, 0x3001, 0x4001, 0x8_0000_0000_0001],
            Leaf(0, true, Small),
        ),
        (
            false,
            [0x2001, 0x3001, 0x8_0000_0000_0081, 0],
            Leaf(1, true, Large),
        ),
    ];
    for (write, words, end) in cases {
        let walk = GuestWalk::start(4, 1, 0x1010, write)?;
        assert_eq!(rt; end_of(walk, &words), end, "write {write}: {words:?}");
    }
    // Whether an address may be walked through four levels, and through five.
    let addresses = [
        (0, true, true),
        (0x7FFF_FFFF_FFFF, true, true),
        (0x8000_0000_0000, false, true),
        (0x1_0000_0000_0000, false, true),
        (0xFF_FFFF_FFFF_FFFF, false, true),
        (0x100_0000_0000_0000, false, false),
        (0xFEFF_FFFF_FFFF_FFFF, false, false),
        (0xFF00_0000_0000_0000, false, true),
        (0xFFFF_7FFF_FFFF_FFFF, false, true),
        (0xFFFF_8000_0000_0000, true, true),
        (0xFFFF_FFFF_FFFF_FFFF, true, true),
    ];
    for (address, with_four, with_five) in addresses {
        assert_eq!(rt;
            GuestWalk::start(4, 1, address, false).is_ok(),
            with_four,
            "at {address}"
        );
        assert_eq!(rt;
            GuestWalk::start(5, 1, address, false).is_ok(),
            with_five,
            "at {address}, with five levels"
        );
    }
    Ok(())
}

// Where a walk ends that is fed with these words.
fn end_of(walk: GuestWalk, words: &[u64]) -> End {
    let mut walk = walk;
    for word in words {
        match walk.feed(*word) {
            GuestWalked::More(next) => walk = next,
            GuestWalked::Leaf { gpn, private, size } => return Leaf(gpn, private, size),
            GuestWalked::Pf(code) => return Pf(code),
        }
    }
    Open
}
