//! Each row of the two tables, alone and before a later one, then each case of the commits. Actor 3 runs the instructions.
ghost use Rattle.std.specs.Prelude.{◌≡◌, ◌≢◌, ℕ, ◌<◌, None, Some, true, IsOk};
ghost use Rattle.snp_model.specs.declared.entry.PageSize.TheVariants.{Small, Large};
ghost use Rattle.snp_model.specs.Entries.{facts_at, holder_at};
ghost use Rattle.snp_model.specs.RmpUpdate.{smash_page_refusal};

use crate::{smash_commit, smash_lock, smash_region, update_commit, update_lock, update_region};
use phys_memory::Region;
use rmp_table::RmpRegion;
use snp_model::{InUse, Kind, PageSize, Refusal, RmpEntry, Update};
use std::alloc::{AllocError, Global};
use std::process::Abort;
use std::test::Fail;

const SMALL: PageSize = PageSize::Small;

const LARGE: PageSize = PageSize::Large;

const INPUT: Result<(), Refusal> = Err(Refusal::Status(1));

const PERMISSION: Result<(), Refusal> = Err(Refusal::Status(2));

const OVERLAP: Result<(), Refusal> = Err(Refusal::Status(4));

// A page of guest 7 that it has accepted.
fn page(gpn: u64) -> RmpEntry
    ensures small { result.size ≡ Small }
    ensures assigned { result.assigned ≡ true }
    ensures gpn { result.gpn ≡ gpn }
{
    RmpEntry {
        assigned: true,
        size: PageSize::Small,
        immutable: false,
        gpn,
        asid: 7,
        vmsa: true,
        validated: true,
        perms: [15, 7, 3, 1],
        kind: Kind::Plain,
    }
}

// A page as RMPUPDATE assigns it to guest 7.
fn given(gpn: u64, immutable: bool) -> RmpEntry {
    RmpEntry {
        immutable,
        vmsa: false,
        validated: false,
        perms: [15, 0, 0, 0],
        ..page(gpn)
    }
}

// A page of the firmware.
fn own(immutable: bool, kind: Kind) -> RmpEntry
    ensures small { result.size ≡ Small }
{
    RmpEntry {
        assigned: true,
        size: SMALL,
        immutable,
        kind,
        ..RmpEntry::free()
    }
}

// A region that is one page of 2 MB, from guest page number 0x200 on.
fn one_page(alloc: Global, immutable: bool) -> Result<RmpRegion, AllocError> {
    let mut rmp = RmpRegion::free(alloc)?;
    let head = RmpEntry {
        size: PageSize::Large,
        immutable,
        ..page(0x200)
    };
    rmp.write_entry(0, head);
    Ok(rmp)
}

// The operands of RMPUPDATE that assigns a page to guest 7.
fn give(frame: u64, size: PageSize, gpn: u64) -> Update {
    Update {
        frame,
        size,
        assigned: true,
        asid: 7,
        gpn,
        immutable: false,
    }
}

// The operands of RMPUPDATE that makes a page free.
fn free(frame: u64, size: PageSize) -> Update {
    Update {
        frame,
        size,
        assigned: false,
        asid: 0,
        gpn: 0,
        immutable: false,
    }
}

// Actor 3 holds no lock.
fn none_held<R: Abort>(rt: &R, rmp: &RmpRegion, actor: u32)
    ensures { (slot : ℕ) → slot < 512 → holder_at rmp.now slot ≢ Some actor }
{
    'slots: for slot in 0..512 {
        match rmp.holder(slot) {
            Some(holder) => assert!(rt; holder != actor),
            None => {}
        }
    }
}

// Locks a slot's page for an actor that doesn't hold it.
fn lock<R: Abort>(rt: &R, rmp: &mut RmpRegion, slot: usize, actor: u32) {
    assert!(rt; slot < 512);
    match rmp.holder(slot) {
        Some(holder) => assert!(rt; holder != actor),
        None => {}
    }
    let answer: Result<(), InUse> = rmp.lock(slot, actor);
    assert!(rt; answer.is_ok());
}

// Writes the entry of a page of 4 KB.
fn write<R: Abort>(rt: &R, rmp: &mut RmpRegion, slot: usize, entry: RmpEntry) {
    assert!(rt; slot < 512 && entry.size == PageSize::Small);
    assert!(rt; rmp.effective(slot).size == PageSize::Small);
    rmp.write_entry(slot, entry);
}

// The answer to RMPUPDATE in a memory of two regions.
fn answer<R: Abort>(rt: &R, rmp: &mut RmpRegion, update: &Update) -> Result<(), Refusal> {
    none_held(rt, rmp, 3);
    match update_region(update, 1024) {
        Ok(_) => update_lock(rmp, update, 3),
        Err(status) => Err(Refusal::Status(status)),
    }
}

// RMPUPDATE with its lock and its commit.
fn update<R: Abort>(rt: &R, memory: &mut Region, rmp: &mut RmpRegion, update: &Update) {
    none_held(rt, rmp, 3);
    match update_region(update, 1024) {
        Ok(_) => match update_lock(rmp, update, 3) {
            Ok(()) => update_commit(memory, rmp, update, 3),
            Err(_) => assert!(rt; false, "{update:?}"),
        },
        Err(_) => assert!(rt; false, "{update:?}"),
    }
}

#[test]
fn operands(rt: HostRuntime) {
    let cases = [
        // The frame is in memory, and the first of its range.
        (give(1023, SMALL, 3), Ok(1)),
        (give(1024, SMALL, 3), Err(1)),
        (give(u64::MAX, SMALL, 3), Err(1)),
        (give(0x1_0000_0009, SMALL, 3), Err(1)),
        (free(1024, SMALL), Err(1)),
        (give(512, LARGE, 0x400), Ok(1)),
        (give(256, LARGE, 0x400), Err(1)),
        (give(513, LARGE, 0x400), Err(1)),
        (free(513, LARGE), Err(1)),
        (give(513, SMALL, 0x400), Ok(1)),
        // A page of 2 MB that becomes assigned has an aligned guest page number and an owner.
        (give(0, LARGE, 0), Ok(0)),
        (give(0, LARGE, 0x401), Err(1)),
        (give(0, LARGE, 0x300), Err(1)),
        (give(0, SMALL, 0x401), Ok(0)),
        (
            Update {
                asid: 0,
                ..give(0, LARGE, 0)
            },
            Err(1),
        ),
        (
            Update {
                asid: 0,
                immutable: true,
                ..give(0, SMALL, 0)
            },
            Ok(0),
        ),
        // A page that becomes free has nothing else.
        (free(0, LARGE), Ok(0)),
        (
            Update {
                asid: 7,
                ..free(0, LARGE)
            },
            Err(1),
        ),
        (
            Update {
                asid: 7,
                ..free(9, SMALL)
            },
            Err(1),
        ),
        (
            Update {
                gpn: 1,
                ..free(9, SMALL)
            },
            Err(1),
        ),
        (
            Update {
                immutable: true,
                ..free(9, SMALL)
            },
            Err(1),
        ),
        (free(9, SMALL), Ok(0)),
        // A page of the firmware has no guest page number.
        (
            Update {
                asid: 0,
                ..give(9, SMALL, 1)
            },
            Err(1),
        ),
        (
            Update {
                asid: 0,
                ..give(9, SMALL, 0)
            },
            Ok(0),
        ),
    ];
    for (update, want) in cases {
        assert_eq!(rt; update_region(&update, 1024), want, "{update:?}");
    }
}

#[test]
fn rows_of_a_small_page(rt: HostRuntime) -> Result<(), Fail> {
    let good = page(0x40);
    let fixed = RmpEntry {
        immutable: true,
        ..good
    };
    let small = give(9, SMALL, 0x40);
    let large = give(0, LARGE, 0x200);
    let outside = give(1024, SMALL, 0x40);
    let held = Err(Refusal::InUse { holder: 2 });
    // The entry of slot 9, the slot that actor 2 has locked, the operands, and the answer.
    let cases = [
        (RmpEntry::free(), None, small, Ok(())),
        (good, None, small, Ok(())),
        (good, Some(8), small, Ok(())),
        (good, None, free(9, SMALL), Ok(())),
        (RmpEntry::free(), None, large, Ok(())),
        // Operands that are refused, whatever stands in the region.
        (fixed, Some(9), outside, INPUT),
        (fixed, None, give(9, LARGE, 0x200), INPUT),
        // Locked by another.
        (good, Some(9), small, held),
        (fixed, Some(9), small, held),
        (good, Some(511), large, held),
        (RmpEntry::free(), Some(0), large, held),
        // A frame of the range is assigned.
        (good, None, large, OVERLAP),
        (fixed, None, large, OVERLAP),
        (own(false, Kind::Plain), None, free(0, LARGE), OVERLAP),
        // Immutable.
        (fixed, None, small, PERMISSION),
        (fixed, None, give(10, SMALL, 0x40), Ok(())),
        (fixed, None, free(9, SMALL), PERMISSION),
        (own(true, Kind::Firmware), None, small, PERMISSION),
        (
            RmpEntry {
                assigned: false,
                ..fixed
            },
            None,
            large,
            PERMISSION,
        ),
    ];
    for (entry, locked, update, want) in cases {
        let mut rmp = RmpRegion::free(rt.alloc())?;
        write(&rt, &mut rmp, 9, entry);
        match locked {
            Some(slot) => lock(&rt, &mut rmp, slot, 2),
            None => {}
        }
        let before = rmp.holder(9);
        let found = answer(&rt, &mut rmp, &update);
        assert_eq!(rt; found, want, "{entry:?} {locked:?} {update:?}");
        // The lock is that of the frame's page, or of every page of the range.
        let taken = want.is_ok();
        let here = taken && update.frame != 10;
        assert_eq!(rt; rmp.holder(9), if here { Some(3) } else { before });
        let all = taken && update.size == LARGE;
        assert_eq!(rt; rmp.holder(400), if all { Some(3) } else { None });
        assert_eq!(rt; rmp.effective(9), entry);
    }
    Ok(())
}

#[test]
fn rows_of_a_large_page(rt: HostRuntime) -> Result<(), Fail> {
    let held = Err(Refusal::InUse { holder: 2 });
    // Whether the page is immutable, whether actor 2 has locked it, the operands, and the answer.
    for (immutable, locked, update, want) in [
        (false, false, give(0, LARGE, 0x200), Ok(())),
        (false, false, free(0, LARGE), Ok(())),
        (true, true, give(0, LARGE, 0x201), INPUT),
        (true, true, give(0, LARGE, 0x200), held),
        (true, true, give(9, SMALL, 0x209), held),
        (true, false, give(9, SMALL, 0x209), OVERLAP),
        (false, false, give(9, SMALL, 0x209), OVERLAP),
        (false, false, give(0, SMALL, 0x200), OVERLAP),
        (true, false, give(0, LARGE, 0x200), PERMISSION),
        (true, false, free(0, LARGE), PERMISSION),
    ] {
        let mut rmp = one_page(rt.alloc(), immutable)?;
        if locked {
            lock(&rt, &mut rmp, 400, 2);
        }
        let before = rmp.holder(9);
        let found = answer(&rt, &mut rmp, &update);
        assert_eq!(rt; found, want, "{immutable} {locked} {update:?}");
        let after = if want.is_ok() { Some(3) } else { before };
        assert_eq!(rt; rmp.holder(511), after, "{immutable} {update:?}");
    }
    Ok(())
}

#[test]
fn lowest_holder_is_named(rt: HostRuntime) -> Result<(), Fail> {
    let mut rmp = RmpRegion::free(rt.alloc())?;
    lock(&rt, &mut rmp, 511, 2);
    lock(&rt, &mut rmp, 9, 5);
    lock(&rt, &mut rmp, 100, 1);
    let found = answer(&rt, &mut rmp, &free(0, LARGE));
    assert_eq!(rt; found, Err(Refusal::InUse { holder: 5 }));
    Ok(())
}

#[test]
fn commits_of_a_small_page(rt: HostRuntime) -> Result<(), Fail> {
    let good = page(0x40);
    let to_fix = Update {
        immutable: true,
        ..give(9, SMALL, 0x40)
    };
    let to_own = Update {
        asid: 0,
        immutable: false,
        ..give(9, SMALL, 0)
    };
    let to_fix_own = Update {
        immutable: true,
        ..to_own
    };
    // The entry of slot 9, the operands, the entry then, and what becomes of its word 5.
    let cases = [
        // Assigned as asked already, it becomes immutable and keeps the rest.
        (
            good,
            to_fix,
            RmpEntry {
                immutable: true,
                ..good
            },
            5,
        ),
        (
            own(false, Kind::Metadata),
            to_fix_own,
            own(true, Kind::Firmware),
            5,
        ),
        // Near that: another page number, ASID or immutable asked, or free before.
        (page(0x41), to_fix, given(0x40, true), 0),
        (RmpEntry { asid: 8, ..good }, to_fix, given(0x40, true), 0),
        (good, give(9, SMALL, 0x40), given(0x40, false), 0),
        (RmpEntry::free(), to_fix, given(0x40, true), 5),
        // It becomes free.
        (good, free(9, SMALL), RmpEntry::free(), 0),
        (own(false, Kind::Plain), free(9, SMALL), RmpEntry::free(), 0),
        (RmpEntry::free(), free(9, SMALL), RmpEntry::free(), 5),
        // It becomes assigned, and loses Validated where the page number changes.
        (good, give(9, SMALL, 0x41), given(0x41, false), 0),
        (
            RmpEntry::free(),
            give(9, SMALL, 0x40),
            given(0x40, false),
            5,
        ),
        (good, to_own, own(false, Kind::Plain), 0),
        (RmpEntry::free(), to_own, own(false, Kind::Plain), 5),
        (good, to_fix_own, own(true, Kind::Firmware), 0),
    ];
    for (entry, operands, want, word) in cases {
        let mut memory = Region::zeroed(rt.alloc())?;
        let mut rmp = RmpRegion::free(rt.alloc())?;
        for slot in [8, 9, 10] {
            memory.store(slot, 3, 5);
            write(&rt, &mut rmp, slot, good);
        }
        write(&rt, &mut rmp, 9, entry);
        lock(&rt, &mut rmp, 8, 2);
        update(&rt, &mut memory, &mut rmp, &operands);
        assert_eq!(rt; rmp.effective(9), want, "{entry:?} {operands:?}");
        assert_eq!(rt; memory.load(9, 3), word, "{entry:?} {operands:?}");
        // Nothing else changes, and the actor's locks alone are released.
        for slot in [8, 10] {
            assert_eq!(rt; rmp.effective(slot), good);
            assert_eq!(rt; memory.load(slot, 3), 5);
        }
        assert_eq!(rt; rmp.holder(8), Some(2));
        assert_eq!(rt; rmp.holder(9), None);
    }
    Ok(())
}

#[test]
fn commits_of_a_large_page(rt: HostRuntime) -> Result<(), Fail> {
    let to_fix = Update {
        immutable: true,
        ..give(0, LARGE, 0x200)
    };
    let fixed = RmpEntry {
        immutable: true,
        ..page(0x200)
    };
    // Whether the region was one page, the operands, the first entry then but for its size, and the words 5.
    for (one, operands, want, word) in [
        (true, to_fix, fixed, 5),
        (false, to_fix, given(0x200, true), 5),
        (true, give(0, LARGE, 0x400), given(0x400, false), 0),
        (true, give(0, LARGE, 0x200), given(0x200, false), 0),
        (false, give(0, LARGE, 0x400), given(0x400, false), 5),
        (true, free(0, LARGE), RmpEntry::free(), 0),
        (false, free(0, LARGE), RmpEntry::free(), 5),
    ] {
        let mut memory = Region::zeroed(rt.alloc())?;
        let mut rmp = if one {
            one_page(rt.alloc(), false)?
        } else {
            RmpRegion::free(rt.alloc())?
        };
        for slot in 0..512 {
            memory.store(slot, 3, 5);
        }
        update(&rt, &mut memory, &mut rmp, &operands);
        assert!(rt; want.gpn < 0x1000);
        for slot in 0..512 {
            // An unassigned frame is of 4 KB; the page numbers of others follow each other.
            let want = if operands.assigned {
                RmpEntry {
                    size: LARGE,
                    gpn: want.gpn + slot as u64,
                    ..want
                }
            } else {
                want
            };
            assert_eq!(rt; rmp.effective(slot), want, "{slot} {operands:?}");
            assert_eq!(rt; memory.load(slot, 3), word, "{slot} {operands:?}");
            assert_eq!(rt; rmp.holder(slot), None, "{slot} {operands:?}");
        }
    }
    Ok(())
}

#[test]
fn frames_to_smash(rt: HostRuntime) {
    for (frame, want) in [
        (0, Ok(0)),
        (512, Ok(1)),
        (1024, Err(1)),
        (0x1_0000_0200, Err(1)),
        (u64::MAX, Err(1)),
        (513, Err(1)),
        (256, Err(1)),
    ] {
        assert_eq!(rt; smash_region(frame, 1024), want, "{frame}");
    }
}

// The answer to PSMASH.
fn smash<R: Abort>(rt: &R, rmp: &mut RmpRegion) -> Result<(), Refusal>
    ensures held { IsOk result → holder_at rmp.new 0 ≡ Some 3 }
    ensures tested { IsOk result → smash_page_refusal (facts_at rmp.new 0) None ≡ None }
{
    match rmp.holder(0) {
        Some(holder) => assert!(rt; holder != 3),
        None => {}
    }
    smash_lock(rmp, 3)
}

#[test]
fn rows_of_smash(rt: HostRuntime) -> Result<(), Fail> {
    let fixed = RmpEntry {
        immutable: true,
        ..page(0x200)
    };
    // The entry of slot 0, the slot that actor 2 has locked, and the answer.
    for (entry, locked, want) in [
        (fixed, Some(0), Err(Refusal::InUse { holder: 2 })),
        (fixed, Some(1), INPUT),
        (fixed, None, INPUT),
        (page(0x200), None, INPUT),
        (RmpEntry::free(), None, INPUT),
    ] {
        let mut rmp = RmpRegion::free(rt.alloc())?;
        write(&rt, &mut rmp, 0, entry);
        match locked {
            Some(slot) => lock(&rt, &mut rmp, slot, 2),
            None => {}
        }
        let before = rmp.holder(0);
        assert_eq!(rt; smash(&rt, &mut rmp), want, "{entry:?} {locked:?}");
        assert_eq!(rt; rmp.holder(0), before, "{entry:?} {locked:?}");
    }
    // Whether the page of 2 MB is immutable, whether actor 2 has locked it, and the answer.
    for (immutable, locked, want) in [
        (true, true, Err(Refusal::InUse { holder: 2 })),
        (false, true, Err(Refusal::InUse { holder: 2 })),
        (true, false, PERMISSION),
        (false, false, Ok(())),
    ] {
        let mut rmp = one_page(rt.alloc(), immutable)?;
        if locked {
            lock(&rt, &mut rmp, 400, 2);
        }
        let before = rmp.holder(0);
        assert_eq!(rt; smash(&rt, &mut rmp), want, "{immutable} {locked}");
        let after = if want.is_ok() { Some(3) } else { before };
        assert_eq!(rt; rmp.holder(511), after, "{immutable} {locked}");
    }
    Ok(())
}

#[test]
fn commit_of_smash(rt: HostRuntime) -> Result<(), Fail> {
    let mut rmp = one_page(rt.alloc(), false)?;
    match smash(&rt, &mut rmp) {
        Ok(()) => smash_commit(&mut rmp, 3),
        Err(_) => assert!(rt; false),
    }
    for slot in 0..512 {
        assert_eq!(rt; rmp.effective(slot), page(0x200 + slot as u64), "{slot}");
        assert_eq!(rt; rmp.holder(slot), None, "{slot}");
    }
    Ok(())
}
