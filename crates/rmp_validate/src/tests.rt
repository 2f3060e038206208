//! Each row of the table, alone and before a later one, then the commit. The codes are sums by hand: P 0x1, U 0x4,
//! RMP 0x8000_0000, final 0x1_0000_0000, ENC 0x4_0000_0000, SIZEM 0x8_0000_0000.
ghost use Rattle.std.specs.Prelude.{◌≡◌, ◌%◌, ◌<◌, true};
ghost use Rattle.snp_model.specs.declared.entry.PageSize.TheVariants.{Small, Large};
ghost use Rattle.snp_model.specs.Accesses.{IsPlace};

use crate::{validate_commit, validate_lock};
use rmp_table::RmpRegion;
use snp_model::{InUse, Kind, PageSize, Place, Refusal, RmpEntry};
use std::alloc::{AllocError, Global};
use std::process::Abort;
use std::test::Fail;

const FAULT: Result<(), Refusal> = Err(Refusal::Npf(0x5_8000_0005));

const SIZES: Result<(), Refusal> = Err(Refusal::Npf(0xd_8000_0005));

const HELD: Result<(), Refusal> = Err(Refusal::InUse { holder: 2 });

// A page of guest 7 that it hasn't accepted.
fn page(gpn: u64) -> RmpEntry
    ensures small { result.size ≡ Small }
    ensures assigned { result.assigned ≡ true }
    ensures gpn { result.gpn ≡ gpn }
{
    RmpEntry {
        assigned: true,
        size: PageSize::Small,
        immutable: false,
        gpn,
        asid: 7,
        vmsa: false,
        validated: false,
        perms: [15, 0, 0, 0],
        kind: Kind::Plain,
    }
}

// A region that is one page of 2 MB, from guest page number 0x200 on.
fn one_page(alloc: Global) -> Result<RmpRegion, AllocError> {
    let mut rmp = RmpRegion::free(alloc)?;
    let head = RmpEntry {
        size: PageSize::Large,
        ..page(0x200)
    };
    rmp.write_entry(0, head);
    Ok(rmp)
}

// Where guest 7 looks, in a slot.
fn place(slot: usize, gpn: u64, leaf: PageSize) -> Place
    requires slot { slot < 512 }
    requires gpn { gpn < 0x1000 }
    ensures { IsPlace result }
{
    Place {
        asid: 7,
        gpn,
        slot,
        index: 0,
        leaf,
        vmpl: 0,
        private: true,
        table: false,
    }
}

// Locks a slot's page for an actor that doesn't hold it.
fn lock<R: Abort>(rt: &R, rmp: &mut RmpRegion, slot: usize, actor: u32)
    requires { slot < 512 }
{
    match rmp.holder(slot) {
        Some(holder) => assert!(rt; holder != actor),
        None => {}
    }
    let answer: Result<(), InUse> = rmp.lock(slot, actor);
    assert!(rt; answer.is_ok());
}

// The answer to actor 3.
fn answer<R: Abort>(rt: &R, rmp: &mut RmpRegion, at: &Place, size: PageSize) -> Result<(), Refusal>
    requires { IsPlace at.now }
{
    match rmp.holder(at.slot) {
        Some(holder) => assert!(rt; holder != 3),
        None => {}
    }
    validate_lock(rmp, at, size, 3)
}

#[test]
fn rows_of_a_small_page(rt: HostRuntime) -> Result<(), Fail> {
    let small = PageSize::Small;
    let large = PageSize::Large;
    let good = page(0x40);
    let wide = page(0x200);
    let cases = [
        (good, false, 0x40, small, small, Ok(())),
        // Another guest page number than a multiple of 512 where 2 MB is asked.
        (good, true, 0x40, small, large, Err(Refusal::Status(1))),
        (good, false, 0x40, large, large, Err(Refusal::Status(1))),
        // Locked by another.
        (wide, true, 0x200, small, large, HELD),
        (RmpEntry::free(), true, 0x40, large, small, HELD),
        // Not assigned, another ASID or guest page number, or immutable.
        (
            RmpEntry {
                assigned: false,
                ..good
            },
            false,
            0x40,
            large,
            small,
            FAULT,
        ),
        (
            RmpEntry { asid: 8, ..good },
            false,
            0x40,
            small,
            small,
            FAULT,
        ),
        (good, false, 0x41, small, small, FAULT),
        (wide, false, 0x400, small, large, FAULT),
        (
            RmpEntry {
                immutable: true,
                ..good
            },
            false,
            0x40,
            large,
            small,
            FAULT,
        ),
        // 4 KB asked over a leaf of 2 MB, and 2 MB asked of a page of 4 KB.
        (good, false, 0x40, large, small, SIZES),
        (wide, false, 0x200, large, large, Err(Refusal::Status(6))),
        (wide, false, 0x200, small, large, Err(Refusal::Status(6))),
    ];
    for (entry, locked, gpn, leaf, size, want) in cases {
        let mut rmp = RmpRegion::free(rt.alloc())?;
        assert!(rt; entry.size == PageSize::Small && gpn < 0x1000);
        assert!(rt; rmp.effective(9).size == PageSize::Small);
        rmp.write_entry(9, entry);
        let other = if locked { 9 } else { 400 };
        assert!(rt; other < 512);
        lock(&rt, &mut rmp, other, 2);
        let before = rmp.holder(9);
        let found = answer(&rt, &mut rmp, &place(9, gpn, leaf), size);
        assert_eq!(rt; found, want, "{entry:?} {gpn} {leaf:?} {size:?}");
        let after = if want.is_ok() { Some(3) } else { before };
        assert_eq!(rt; rmp.holder(9), after, "{entry:?} {gpn}");
        assert_eq!(rt; rmp.holder(8), None);
        assert_eq!(rt; rmp.effective(9), entry);
    }
    Ok(())
}

#[test]
fn rows_of_a_large_page(rt: HostRuntime) -> Result<(), Fail> {
    let small = PageSize::Small;
    let large = PageSize::Large;
    for (slot, gpn, leaf, size, want) in [
        (0, 0x200, large, large, Ok(())),
        (0, 0x200, small, large, Ok(())),
        (9, 0x209, large, large, Err(Refusal::Status(1))),
        (9, 0x209, small, small, SIZES),
        (9, 0x200, small, large, FAULT),
    ] {
        let mut rmp = one_page(rt.alloc())?;
        assert!(rt; slot < 512 && gpn < 0x1000);
        let found = answer(&rt, &mut rmp, &place(slot, gpn, leaf), size);
        assert_eq!(rt; found, want, "{slot} {leaf:?} {size:?}");
        // The lock is the page's.
        let holder = if want.is_ok() { Some(3) } else { None };
        assert_eq!(rt; rmp.holder(511), holder, "{slot} {leaf:?} {size:?}");
    }
    Ok(())
}

// What the commit of actor 3 answers.
fn commit<R: Abort>(rt: &R, rmp: &mut RmpRegion, slot: usize, validate: bool) -> bool
    requires { slot < 512 }
{
    match rmp.holder(slot) {
        Some(holder) => assert!(rt; holder == 3),
        None => assert!(rt; false),
    }
    validate_commit(rmp, slot, validate, 3)
}

#[test]
fn commits(rt: HostRuntime) -> Result<(), Fail> {
    for one in [false, true] {
        let mut rmp = if one {
            one_page(rt.alloc())?
        } else {
            RmpRegion::free(rt.alloc())?
        };
        if !one {
            assert!(rt; rmp.effective(9).size == PageSize::Small);
            rmp.write_entry(9, page(0x209));
            lock(&rt, &mut rmp, 400, 2);
        }
        let old = rmp.effective(9);
        // Whether validated is asked; the carry flag.
        for (validate, carry) in [
            (false, true),
            (true, false),
            (true, true),
            (false, false),
            (true, false),
        ] {
            lock(&rt, &mut rmp, 9, 3);
            assert_eq!(rt; commit(&rt, &mut rmp, 9, validate), carry, "{one}");
            let want = RmpEntry {
                validated: validate,
                ..old
            };
            assert_eq!(rt; rmp.effective(9), want, "{one}");
            // The whole page changes, and nothing else; the actor's locks alone are released.
            assert_eq!(rt; rmp.effective(511).validated, one && validate);
            assert_eq!(rt; rmp.holder(9), None);
            assert_eq!(rt; rmp.holder(400), if one { None } else { Some(2) });
        }
    }
    Ok(())
}
