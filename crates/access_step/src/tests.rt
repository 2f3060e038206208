//! Accesses to one word in a region of its own: the outcome, the word, and its neighbours. The codes are sums
//! by hand, as in the manual's bits of EXITINFO1.
ghost use Rattle.std.specs.Prelude.{◌<◌};
ghost use Rattle.snp_model.specs.Accesses.{IsPlace};

use crate::{access, host_access};
use phys_memory::Region;
use rmp_table::RmpRegion;
use snp_model::{Kind, Op, Outcome, PageSize, Place, RmpEntry};
use std::test::Fail;

const COMPARE: Op = Op::Compare {
    expected: 6,
    next: 9,
};

const MISSED: Op = Op::Compare {
    expected: 5,
    next: 9,
};

// A page of guest 7 at 0x40, which VMPL1 may read only.
fn page() -> RmpEntry {
    RmpEntry {
        assigned: true,
        size: PageSize::Small,
        immutable: false,
        gpn: 0x40,
        asid: 7,
        vmsa: false,
        validated: true,
        perms: [15, 1, 0, 0],
        kind: Kind::Plain,
    }
}

// Where guest 7 looks for word 3 of that page, in frame 9.
fn place(vmpl: u8, private: bool) -> Place
    requires { vmpl < 4 }
    ensures { IsPlace result }
{
    Place {
        asid: 7,
        gpn: 0x40,
        slot: 9,
        index: 3,
        leaf: PageSize::Small,
        vmpl,
        private,
        table: false,
    }
}

#[test]
fn accesses(rt: HostRuntime) -> Result<(), Fail> {
    let mut memory = Region::zeroed(rt.alloc())?;
    let mut rmp = RmpRegion::free(rt.alloc())?;
    let free = rmp.effective(9);
    assert_eq!(rt; free, RmpEntry::free());
    let stale = RmpEntry {
        validated: false,
        ..page()
    };
    let refused = Outcome::Npf(0x5_8000_0007);
    let shared = Outcome::Npf(0x1_8000_0007);
    // The entry, the VMPL, whether private, the operation; the outcome, and what becomes of the word 6.
    let guest = [
        (page(), 0, true, Op::Load, Outcome::Loaded(6), 6),
        (page(), 1, true, Op::Load, Outcome::Loaded(6), 6),
        (page(), 0, true, Op::Store(8), Outcome::Stored, 8),
        (page(), 0, true, Op::Swap(8), Outcome::Swapped(6), 8),
        (page(), 0, true, Op::Xor(3), Outcome::Swapped(6), 5),
        (
            page(),
            0,
            true,
            COMPARE,
            Outcome::Compared {
                found: 6,
                written: true,
            },
            9,
        ),
        (
            page(),
            0,
            true,
            MISSED,
            Outcome::Compared {
                found: 6,
                written: false,
            },
            6,
        ),
        (
            page(),
            1,
            true,
            Op::Store(8),
            Outcome::Npf(0x15_8000_0007),
            6,
        ),
        (page(), 1, true, MISSED, Outcome::Npf(0x15_8000_0007), 6),
        (stale, 0, true, Op::Store(8), Outcome::Vc(0x404), 6),
        (free, 0, true, Op::Store(8), refused, 6),
        (free, 0, false, Op::Store(8), Outcome::Stored, 8),
        (free, 3, false, Op::Load, Outcome::Loaded(6), 6),
        (page(), 0, false, Op::Load, Outcome::Opaque, 6),
        (page(), 0, false, COMPARE, shared, 6),
    ];
    for (entry, vmpl, private, op, want, word) in guest {
        assert!(rt; vmpl < 4);
        assert!(rt; entry.size == PageSize::Small);
        assert!(rt; rmp.effective(9).size == PageSize::Small);
        memory.store(9, 3, 6);
        rmp.write_entry(9, entry);
        let outcome = access(&mut memory, &rmp, &place(vmpl, private), &op);
        assert_eq!(rt; outcome, want, "{entry:?} {vmpl} {private} {op:?}");
        assert_eq!(rt;
            memory.load(9, 3),
            word,
            "{entry:?} {vmpl} {private} {op:?}"
        );
    }
    let host = [
        (free, Op::Load, Outcome::Loaded(6), 6),
        (free, Op::Xor(3), Outcome::Swapped(6), 5),
        (
            free,
            MISSED,
            Outcome::Compared {
                found: 6,
                written: false,
            },
            6,
        ),
        (page(), Op::Load, Outcome::Opaque, 6),
        (page(), Op::Store(8), Outcome::Pf(0x8000_0003), 6),
        (stale, COMPARE, Outcome::Pf(0x8000_0003), 6),
    ];
    for (entry, op, want, word) in host {
        assert!(rt; entry.size == PageSize::Small);
        assert!(rt; rmp.effective(9).size == PageSize::Small);
        memory.store(9, 3, 6);
        rmp.write_entry(9, entry);
        assert_eq!(rt;
            host_access(&mut memory, &rmp, 9, 3, &op),
            want,
            "host {entry:?} {op:?}"
        );
        assert_eq!(rt; memory.load(9, 3), word, "host {entry:?} {op:?}");
    }
    for (page, index) in [(9, 2), (9, 4), (8, 3), (10, 3), (3, 9), (0, 0), (511, 511)] {
        assert!(rt; page < 512 && index < 512);
        assert_eq!(rt; memory.load(page, index), 0, "{page} {index}");
        assert_eq!(rt;
            rmp.effective(if page == 9 { 0 } else { page }),
            RmpEntry::free()
        );
    }
    Ok(())
}
