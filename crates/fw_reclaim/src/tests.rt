//! Pages in each state that are taken back: their entries and words then, those of their neighbours, and the locks.
ghost use Rattle.std.specs.Prelude.{◌≡◌, ◌%◌, true};
ghost use Rattle.snp_model.specs.declared.entry.PageSize.TheVariants.{Small, Large};

use crate::{md_commit, reclaim_commit};
use phys_memory::Region;
use rmp_table::RmpRegion;
use snp_model::{InUse, Kind, PageSize, RmpEntry};
use std::process::Abort;
use std::test::Fail;

// A Pre-Swap page of guest 7.
fn page() -> RmpEntry
    ensures small { result.size ≡ Small }
    ensures assigned { result.assigned ≡ true }
    ensures aligned { result.gpn % 512 ≡ 0 }
{
    RmpEntry {
        assigned: true,
        size: PageSize::Small,
        immutable: true,
        gpn: 0x200,
        asid: 7,
        vmsa: true,
        validated: true,
        perms: [15, 7, 3, 1],
        kind: Kind::Plain,
    }
}

// An immutable page without a guest.
fn own(kind: Kind) -> RmpEntry {
    RmpEntry {
        gpn: 0,
        asid: 0,
        vmsa: false,
        validated: false,
        perms: [0; 4],
        kind,
        ..page()
    }
}

// Writes a page of 4 KB, with its number and two words.
fn write<R: Abort>(rt: &R, memory: &mut Region, rmp: &mut RmpRegion, slot: usize, entry: RmpEntry) {
    assert!(rt; slot < 512 && entry.size == PageSize::Small);
    assert!(rt; rmp.effective(slot).size == PageSize::Small);
    rmp.write_entry(slot, entry);
    memory.store(slot, 0, slot as u64);
    memory.store(slot, 511, 5);
}

// Locks a slot's page for an actor that doesn't hold it.
fn lock<R: Abort>(rt: &R, rmp: &mut RmpRegion, slot: usize, actor: u32) {
    assert!(rt; slot < 512);
    match rmp.holder(slot) {
        Some(holder) => assert!(rt; holder != actor),
        None => {}
    }
    let answer: Result<(), InUse> = rmp.lock(slot, actor);
    assert!(rt; answer.is_ok());
}

// Writes this page to slots 8, 9 and 10. Actor 3 locks slot 9, and actor 2 slot 10.
fn prepare<R: Abort>(rt: &R, memory: &mut Region, rmp: &mut RmpRegion, entry: RmpEntry) {
    write(rt, memory, rmp, 8, entry);
    write(rt, memory, rmp, 9, entry);
    write(rt, memory, rmp, 10, entry);
    lock(rt, rmp, 9, 3);
    lock(rt, rmp, 10, 2);
}

// Takes back the page of slot 9.
fn reclaim<R: Abort>(rt: &R, memory: &mut Region, rmp: &mut RmpRegion) {
    assert!(rt; rmp.holder(9).is_some());
    reclaim_commit(memory, rmp, 9)
}

// Makes a Metadata page of slot 9.
fn make_metadata<R: Abort>(rt: &R, memory: &mut Region, rmp: &mut RmpRegion) {
    assert!(rt; rmp.holder(9).is_some());
    assert!(rt; rmp.effective(9).size == PageSize::Small);
    md_commit(memory, rmp, 9)
}

// Whether a page has this entry and these first and last words.
fn is_page<R: Abort>(
    rt: &R,
    memory: &Region,
    rmp: &RmpRegion,
    slot: usize,
    entry: RmpEntry,
    words: [u64; 2],
) -> Result<(), Fail> {
    assert!(rt; slot < 512);
    assert_eq!(rt; rmp.effective(slot), entry, "{slot}");
    assert_eq!(rt; memory.load(slot, 0), words[0], "{slot}");
    assert_eq!(rt; memory.load(slot, 511), words[1], "{slot}");
    Ok(())
}

// Whether slots 8 and 10, and the locks, are as they were.
fn others_stay<R: Abort>(
    rt: &R,
    memory: &Region,
    rmp: &RmpRegion,
    entry: RmpEntry,
) -> Result<(), Fail> {
    is_page(rt, memory, rmp, 8, entry, [8, 5])?;
    is_page(rt, memory, rmp, 10, entry, [10, 5])?;
    assert_eq!(rt; rmp.holder(9), Some(3));
    assert_eq!(rt; rmp.holder(10), Some(2));
    Ok(())
}

#[test]
fn reclaimed(rt: HostRuntime) -> Result<(), Fail> {
    let reclaim_page = RmpEntry {
        immutable: false,
        ..own(Kind::Plain)
    };
    let swap = page();
    let guest = RmpEntry {
        validated: false,
        ..swap
    };
    let valid = RmpEntry {
        immutable: false,
        ..swap
    };
    let invalid = RmpEntry {
        immutable: false,
        ..guest
    };
    // The page before and after, and what becomes of its words 9 and 5.
    for (entry, want, words) in [
        (own(Kind::Firmware), reclaim_page, [0, 0]),
        (own(Kind::Metadata), reclaim_page, [0, 0]),
        (guest, invalid, [9, 5]),
        (swap, valid, [9, 5]),
        // The kind counts only where there is no guest.
        (
            RmpEntry {
                kind: Kind::Context,
                ..swap
            },
            RmpEntry {
                kind: Kind::Context,
                ..valid
            },
            [9, 5],
        ),
        // No other state changes.
        (own(Kind::Context), own(Kind::Context), [9, 5]),
        (valid, valid, [9, 5]),
        (invalid, invalid, [9, 5]),
        (reclaim_page, reclaim_page, [9, 5]),
        (RmpEntry::free(), RmpEntry::free(), [9, 5]),
    ] {
        let mut memory = Region::zeroed(rt.alloc())?;
        let mut rmp = RmpRegion::free(rt.alloc())?;
        prepare(&rt, &mut memory, &mut rmp, entry);
        reclaim(&rt, &mut memory, &mut rmp);
        is_page(&rt, &memory, &rmp, 9, want, words)?;
        others_stay(&rt, &memory, &rmp, entry)?;
    }
    Ok(())
}

#[test]
fn large_pages_reclaimed(rt: HostRuntime) -> Result<(), Fail> {
    // Whether the page was accepted.
    for validated in [false, true] {
        let mut memory = Region::zeroed(rt.alloc())?;
        let mut rmp = RmpRegion::free(rt.alloc())?;
        let head = RmpEntry {
            size: PageSize::Large,
            validated,
            ..page()
        };
        rmp.write_entry(0, head);
        for slot in 0..512 {
            memory.store(slot, 3, 5);
        }
        lock(&rt, &mut rmp, 100, 3);
        reclaim(&rt, &mut memory, &mut rmp);
        // The whole page is the guest's again, and keeps its words.
        for slot in 0..512 {
            let want = RmpEntry {
                immutable: false,
                gpn: 0x200 + slot as u64,
                ..head
            };
            assert_eq!(rt; rmp.effective(slot), want, "{slot} {validated}");
            assert_eq!(rt; memory.load(slot, 3), 5, "{slot} {validated}");
            assert_eq!(rt; rmp.holder(slot), Some(3), "{slot} {validated}");
        }
    }
    Ok(())
}

#[test]
fn metadata_pages(rt: HostRuntime) -> Result<(), Fail> {
    let entry = own(Kind::Firmware);
    let mut memory = Region::zeroed(rt.alloc())?;
    let mut rmp = RmpRegion::free(rt.alloc())?;
    prepare(&rt, &mut memory, &mut rmp, entry);
    make_metadata(&rt, &mut memory, &mut rmp);
    is_page(&rt, &memory, &rmp, 9, own(Kind::Metadata), [0, 0])?;
    others_stay(&rt, &memory, &rmp, entry)
}
