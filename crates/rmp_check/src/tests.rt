//! Each row of the tables, alone and before a later one. The codes are sums by hand: P 0x1, W 0x2, U 0x4,
//! RMP 0x8000_0000, final 0x1_0000_0000, table 0x2_0000_0000, ENC 0x4_0000_0000, VMPL 0x10_0000_0000.
ghost use Rattle.std.specs.Prelude.{◌<◌};
ghost use Rattle.snp_model.specs.Accesses.{IsPlace};

use crate::{Place, Verdict, host_verdict, private_verdict, shared_verdict};
use snp_model::{Kind, Op, Outcome, PageSize, RmpEntry};

const COMPARE: Op = Op::Compare {
    expected: 1,
    next: 2,
};

// A page of guest 7 at 0x40: VMPL0 may do all, VMPL1 read and write, VMPL2 only read, VMPL3 only write.
fn page() -> RmpEntry {
    RmpEntry {
        assigned: true,
        size: PageSize::Small,
        immutable: false,
        gpn: 0x40,
        asid: 7,
        vmsa: false,
        validated: true,
        perms: [15, 3, 1, 2],
        kind: Kind::Plain,
    }
}

// Where guest 7 looks for that page.
fn place(vmpl: u8, leaf: PageSize, table: bool) -> Place
    requires { vmpl < 4 }
    ensures { IsPlace result }
{
    Place {
        asid: 7,
        gpn: 0x40,
        slot: 9,
        index: 3,
        leaf,
        vmpl,
        private: true,
        table,
    }
}

fn npf(code: u64) -> Verdict {
    Verdict::Fault(Outcome::Npf(code))
}

#[test]
fn private_rows(rt: HostRuntime) {
    let good = page();
    let small = PageSize::Small;
    let large = PageSize::Large;
    let wide = RmpEntry {
        size: large,
        ..good
    };
    let stale = RmpEntry {
        validated: false,
        ..good
    };
    let cases = [
        // Nothing applies.
        (good, 0, small, false, Op::Load, Verdict::Pass),
        (good, 1, small, false, COMPARE, Verdict::Pass),
        (good, 2, small, false, Op::Load, Verdict::Pass),
        (good, 2, small, true, Op::Load, Verdict::Pass),
        (good, 3, small, false, Op::Store(5), Verdict::Pass),
        (wide, 0, large, false, Op::Swap(5), Verdict::Pass),
        (wide, 0, small, false, Op::Xor(5), Verdict::Pass),
        (
            RmpEntry {
                vmsa: true,
                kind: Kind::Metadata,
                ..good
            },
            0,
            small,
            false,
            Op::Load,
            Verdict::Pass,
        ),
        // Not assigned, or another ASID.
        (
            RmpEntry {
                assigned: false,
                ..good
            },
            0,
            small,
            false,
            Op::Load,
            npf(0x5_8000_0005),
        ),
        (
            RmpEntry { asid: 8, ..good },
            0,
            small,
            false,
            Op::Store(5),
            npf(0x5_8000_0007),
        ),
        (
            RmpEntry { asid: 0, ..good },
            3,
            small,
            true,
            Op::Load,
            npf(0x6_8000_0007),
        ),
        // Another guest page number.
        (
            RmpEntry { gpn: 0x41, ..good },
            0,
            small,
            false,
            COMPARE,
            npf(0x5_8000_0007),
        ),
        (
            RmpEntry { gpn: 0x41, ..stale },
            0,
            small,
            false,
            Op::Load,
            npf(0x5_8000_0005),
        ),
        // Immutable.
        (
            RmpEntry {
                immutable: true,
                ..good
            },
            0,
            small,
            false,
            Op::Xor(5),
            npf(0x5_8000_0007),
        ),
        (
            RmpEntry {
                immutable: true,
                ..stale
            },
            3,
            small,
            false,
            Op::Load,
            npf(0x5_8000_0005),
        ),
        // A nested leaf of 2 MB over a page of 4 KB.
        (good, 0, large, false, Op::Load, npf(0x5_8000_0005)),
        (stale, 0, large, true, Op::Load, npf(0x6_8000_0007)),
        (good, 3, large, false, Op::Load, npf(0x5_8000_0005)),
        // Not validated, whatever the permissions.
        (
            stale,
            0,
            small,
            false,
            Op::Load,
            Verdict::Fault(Outcome::Vc(0x404)),
        ),
        (
            stale,
            2,
            small,
            false,
            Op::Store(5),
            Verdict::Fault(Outcome::Vc(0x404)),
        ),
        (
            stale,
            3,
            small,
            true,
            Op::Load,
            Verdict::Fault(Outcome::Vc(0x404)),
        ),
        // The VMPL's permissions.
        (good, 2, small, false, Op::Store(5), npf(0x15_8000_0007)),
        (good, 2, small, false, Op::Swap(5), npf(0x15_8000_0007)),
        (good, 2, small, false, COMPARE, npf(0x15_8000_0007)),
        (good, 2, small, false, Op::Xor(5), npf(0x15_8000_0007)),
        (good, 3, small, false, Op::Load, npf(0x15_8000_0005)),
        (good, 3, small, true, Op::Load, npf(0x16_8000_0007)),
        (good, 3, small, false, Op::Swap(5), npf(0x15_8000_0007)),
    ];
    for (entry, vmpl, leaf, table, op, want) in cases {
        assert!(rt; vmpl < 4);
        let at = place(vmpl, leaf, table);
        assert_eq!(rt;
            private_verdict(&entry, &at, &op),
            want,
            "{entry:?} {at:?} {op:?}"
        );
    }
}

#[test]
fn shared_and_host_rows(rt: HostRuntime) {
    let free = RmpEntry::free();
    let fault = npf(0x1_8000_0007);
    let host_fault = Verdict::Fault(Outcome::Pf(0x8000_0003));
    let cases = [
        (free, Op::Load, Verdict::Pass, Verdict::Pass),
        (free, Op::Store(5), Verdict::Pass, Verdict::Pass),
        (
            RmpEntry {
                assigned: false,
                ..page()
            },
            COMPARE,
            Verdict::Pass,
            Verdict::Pass,
        ),
        (page(), Op::Store(5), fault, host_fault),
        (page(), Op::Swap(5), fault, host_fault),
        (page(), COMPARE, fault, host_fault),
        (page(), Op::Xor(5), fault, host_fault),
        (page(), Op::Load, Verdict::Hidden, Verdict::Hidden),
        (
            RmpEntry {
                assigned: true,
                ..free
            },
            Op::Load,
            Verdict::Hidden,
            Verdict::Hidden,
        ),
    ];
    for (entry, op, shared, host) in cases {
        let at = place(0, PageSize::Small, false);
        assert_eq!(rt;
            shared_verdict(&entry, &at, &op),
            shared,
            "shared {entry:?} {op:?}"
        );
        assert_eq!(rt; host_verdict(&entry, &op), host, "host {entry:?} {op:?}");
    }
}
