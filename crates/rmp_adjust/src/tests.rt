//! Each row of the tables, alone and before a later one, then the commit. The codes are sums by hand: P 0x1, U 0x4,
//! RMP 0x8000_0000, final 0x1_0000_0000, ENC 0x4_0000_0000, SIZEM 0x8_0000_0000.
ghost use Rattle.std.specs.Prelude.{◌≡◌, ◌%◌, ◌<◌, true};
ghost use Rattle.snp_model.specs.declared.entry.PageSize.TheVariants.{Small, Large};
ghost use Rattle.snp_model.specs.Accesses.{IsPlace};

use crate::{adjust_commit, adjust_input, adjust_lock};
use rmp_table::RmpRegion;
use snp_model::{InUse, Kind, PageSize, Place, Refusal, RmpEntry};
use std::alloc::{AllocError, Global};
use std::process::Abort;
use std::test::Fail;

const FAULT: Result<(), Refusal> = Err(Refusal::Npf(0x5_8000_0005));

const SIZES: Result<(), Refusal> = Err(Refusal::Npf(0xd_8000_0005));

const PERMISSION: Result<(), Refusal> = Err(Refusal::Status(2));

// A page of guest 7 that it has accepted. VMPL1 may read, write and execute in user mode.
fn page(gpn: u64) -> RmpEntry
    ensures small { result.size ≡ Small }
    ensures assigned { result.assigned ≡ true }
    ensures gpn { result.gpn ≡ gpn }
{
    RmpEntry {
        assigned: true,
        size: PageSize::Small,
        immutable: false,
        gpn,
        asid: 7,
        vmsa: true,
        validated: true,
        perms: [15, 7, 1, 0],
        kind: Kind::Plain,
    }
}

// A region that is one page of 2 MB, from guest page number 0x200 on.
fn one_page(alloc: Global) -> Result<RmpRegion, AllocError> {
    let mut rmp = RmpRegion::free(alloc)?;
    let head = RmpEntry {
        size: PageSize::Large,
        ..page(0x200)
    };
    rmp.write_entry(0, head);
    Ok(rmp)
}

// Where guest 7 looks with a VMPL, in slot 9.
fn place(vmpl: u8, gpn: u64, leaf: PageSize) -> Place
    requires vmpl { vmpl < 4 }
    requires gpn { gpn < 0x1000 }
    ensures { IsPlace result }
{
    Place {
        asid: 7,
        gpn,
        slot: 9,
        index: 0,
        leaf,
        vmpl,
        private: true,
        table: false,
    }
}

// Locks a slot's page for an actor that doesn't hold it.
fn lock<R: Abort>(rt: &R, rmp: &mut RmpRegion, slot: usize, actor: u32)
    requires { slot < 512 }
{
    match rmp.holder(slot) {
        Some(holder) => assert!(rt; holder != actor),
        None => {}
    }
    let answer: Result<(), InUse> = rmp.lock(slot, actor);
    assert!(rt; answer.is_ok());
}

// The answer to actor 3, which asks for these permissions, and for VMSA or not.
fn answer<R: Abort>(
    rt: &R,
    rmp: &mut RmpRegion,
    at: &Place,
    size: PageSize,
    asked: (u8, bool),
) -> Result<(), Refusal>
    requires { IsPlace at.now }
{
    match rmp.holder(at.slot) {
        Some(holder) => assert!(rt; holder != 3),
        None => {}
    }
    adjust_lock(rmp, at, size, asked.0, asked.1, 3)
}

#[test]
fn input(rt: HostRuntime) {
    for (vmpl, target, mask, want) in [
        (0, 1, 15, None),
        (2, 3, 0, None),
        (0, 4, 0, Some(1)),
        (0, 1, 16, Some(1)),
        (3, 4, 16, Some(1)),
        (0, 0, 15, Some(2)),
        (2, 1, 0, Some(2)),
        (3, 3, 15, Some(2)),
        (3, 3, 16, Some(1)),
    ] {
        assert_eq!(rt;
            adjust_input(vmpl, target, mask),
            want,
            "{vmpl} {target} {mask}"
        );
    }
}

#[test]
fn rows(rt: HostRuntime) -> Result<(), Fail> {
    let small = PageSize::Small;
    let large = PageSize::Large;
    let good = page(0x40);
    let wide = page(0x200);
    let stale = RmpEntry {
        validated: false,
        ..good
    };
    let cases = [
        (good, false, 0, 0x40, small, small, (15, true), Ok(())),
        (good, false, 1, 0x40, small, small, (7, false), Ok(())),
        (good, false, 2, 0x40, small, small, (0, false), Ok(())),
        // The rows of PVALIDATE come first.
        (
            stale,
            true,
            1,
            0x40,
            small,
            large,
            (8, true),
            Err(Refusal::Status(1)),
        ),
        (
            stale,
            true,
            1,
            0x40,
            small,
            small,
            (8, true),
            Err(Refusal::InUse { holder: 2 }),
        ),
        (stale, false, 1, 0x41, small, small, (8, true), FAULT),
        (stale, false, 1, 0x40, large, small, (8, true), SIZES),
        (
            wide,
            false,
            1,
            0x200,
            small,
            large,
            (8, true),
            Err(Refusal::Status(6)),
        ),
        // Not validated, whatever is asked.
        (
            stale,
            false,
            0,
            0x40,
            small,
            small,
            (15, true),
            Err(Refusal::Vc(0x404)),
        ),
        (
            stale,
            false,
            1,
            0x40,
            small,
            small,
            (8, true),
            Err(Refusal::Vc(0x404)),
        ),
        // A permission that the actor's own VMPL lacks.
        (good, false, 1, 0x40, small, small, (8, false), PERMISSION),
        (good, false, 2, 0x40, small, small, (3, false), PERMISSION),
        (good, false, 3, 0x40, small, small, (1, false), PERMISSION),
        // VMSA outside VMPL0.
        (good, false, 1, 0x40, small, small, (7, true), PERMISSION),
        (good, false, 3, 0x40, small, small, (0, true), PERMISSION),
    ];
    for (entry, locked, vmpl, gpn, leaf, size, asked, want) in cases {
        let mut rmp = RmpRegion::free(rt.alloc())?;
        assert!(rt; entry.size == PageSize::Small && gpn < 0x1000 && vmpl < 4);
        assert!(rt; rmp.effective(9).size == PageSize::Small);
        rmp.write_entry(9, entry);
        let other = if locked { 9 } else { 400 };
        assert!(rt; other < 512);
        lock(&rt, &mut rmp, other, 2);
        let before = rmp.holder(9);
        let found = answer(&rt, &mut rmp, &place(vmpl, gpn, leaf), size, asked);
        assert_eq!(rt; found, want, "{entry:?} {vmpl} {asked:?}");
        let after = if want.is_ok() { Some(3) } else { before };
        assert_eq!(rt; rmp.holder(9), after, "{entry:?} {vmpl} {asked:?}");
        assert_eq!(rt; rmp.holder(10), None);
        assert_eq!(rt; rmp.effective(9), entry);
    }
    Ok(())
}

#[test]
fn commits(rt: HostRuntime) -> Result<(), Fail> {
    // Whether the region is one page of 2 MB, the actor's VMPL, the target, permissions and VMSA; what is left.
    for (one, vmpl, target, mask, vmsa, perms, after) in [
        (false, 0, 1, 15, false, [15, 15, 1, 0], false),
        (false, 0, 3, 4, true, [15, 7, 1, 4], true),
        (false, 1, 2, 3, false, [15, 7, 3, 0], true),
        (true, 0, 2, 0, false, [15, 7, 0, 0], false),
        (true, 2, 3, 1, false, [15, 7, 1, 1], true),
    ] {
        let mut rmp = if one {
            one_page(rt.alloc())?
        } else {
            RmpRegion::free(rt.alloc())?
        };
        if !one {
            assert!(rt; rmp.effective(9).size == PageSize::Small);
            rmp.write_entry(9, page(0x209));
            lock(&rt, &mut rmp, 400, 2);
        }
        lock(&rt, &mut rmp, 9, 3);
        let old = rmp.effective(9);
        let last = rmp.effective(511);
        match rmp.holder(9) {
            Some(holder) => assert!(rt; holder == 3),
            None => assert!(rt; false),
        }
        match adjust_input(vmpl, target, mask) {
            Some(_) => assert!(rt; false),
            None => adjust_commit(&mut rmp, 9, vmpl, target, mask, vmsa, 3),
        }
        let want = RmpEntry {
            perms,
            vmsa: after,
            ..old
        };
        assert_eq!(rt; rmp.effective(9), want, "{one} {vmpl} {target}");
        // The whole page changes, and nothing else; the actor's locks alone are released.
        let want = if one {
            RmpEntry {
                perms,
                vmsa: after,
                ..last
            }
        } else {
            last
        };
        assert_eq!(rt; rmp.effective(511), want, "{one} {vmpl} {target}");
        assert_eq!(rt; rmp.holder(9), None);
        assert_eq!(rt; rmp.holder(400), if one { None } else { Some(2) });
    }
    Ok(())
}
