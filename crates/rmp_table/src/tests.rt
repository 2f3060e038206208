//! Entries and locks of a region of 4 KB pages, and of one page of 2 MB: what each call answers, and what every
//! frame then has.
ghost use Rattle.std.specs.Prelude.{◌≡◌, ◌≢◌, ℕ, ◌%◌, ◌<◌, Some, true};
ghost use Rattle.snp_model.specs.declared.entry.PageSize.TheVariants.{Small, Large};
ghost use Rattle.snp_model.specs.Entries.{holder_at};

use crate::RmpRegion;
use snp_model::{InUse, Kind, PageSize, RmpEntry};
use std::alloc::{AllocError, Global};
use std::process::Abort;
use std::test::Fail;

// An entry with something in each field.
fn entry(asid: u16) -> RmpEntry
    ensures assigned { result.assigned ≡ true }
    ensures small { result.size ≡ Small }
{
    RmpEntry {
        assigned: true,
        size: PageSize::Small,
        immutable: true,
        gpn: 0xf_ffff_ffff,
        asid,
        vmsa: true,
        validated: true,
        perms: [15, 7, 3, 1],
        kind: Kind::Metadata,
    }
}

// The entry of a page of 2 MB from 0xf_ffff_fe00 on, the last one of guest page numbers.
fn head() -> RmpEntry
    ensures large { result.size ≡ Large }
    ensures assigned { result.assigned ≡ true }
    ensures aligned { result.gpn % 512 ≡ 0 }
{
    RmpEntry {
        size: PageSize::Large,
        gpn: 0xf_ffff_fe00,
        kind: Kind::Plain,
        ..entry(7)
    }
}

// A region that is one page of 2 MB, unlocked.
fn one_page(alloc: Global) -> Result<RmpRegion, AllocError> {
    let mut rmp = RmpRegion::free(alloc)?;
    rmp.write_entry(0, head());
    Ok(rmp)
}

// What an actor does with locks.
#[derive(Clone, Copy, Debug)]
enum Step {
    Lock(usize, u32),
    LockAll(u32),
    Unlock(u32),
}

// Does it, where the actor doesn't hold what it locks: the holder where it is in use.
fn make<R: Abort>(rt: &R, rmp: &mut RmpRegion, step: Step) -> Option<u32> {
    let answer = match step {
        Step::Lock(slot, actor) => {
            assert!(rt; slot < 512);
            match rmp.holder(slot) {
                Some(holder) => assert!(rt; holder != actor),
                None => {}
            }
            rmp.lock(slot, actor)
        }
        Step::LockAll(actor) => {
            not_held(rt, rmp, actor);
            rmp.lock_all(actor)
        }
        Step::Unlock(actor) => {
            rmp.unlock(actor);
            Ok(())
        }
    };
    match answer {
        Ok(()) => None,
        Err(InUse { holder }) => Some(holder),
    }
}

// An actor holds no lock.
fn not_held<R: Abort>(rt: &R, rmp: &RmpRegion, actor: u32)
    ensures { (slot : ℕ) → slot < 512 → holder_at rmp.now slot ≢ Some actor }
{
    'slots: for slot in 0..512 {
        match rmp.holder(slot) {
            Some(holder) => assert!(rt; holder != actor),
            None => {}
        }
    }
}

// Each step with its answer, and the holders of frames 0, 3, 9 and 511 after it.
fn go<R: Abort>(
    rt: &R,
    rmp: &mut RmpRegion,
    steps: &[(Step, Option<u32>, [Option<u32>; 4])],
) -> Result<(), Fail> {
    for (step, answer, holders) in steps {
        assert_eq!(rt; make(rt, rmp, *step), *answer, "{step:?}");
        assert_eq!(rt; rmp.holder(0), holders[0], "{step:?}");
        assert_eq!(rt; rmp.holder(3), holders[1], "{step:?}");
        assert_eq!(rt; rmp.holder(9), holders[2], "{step:?}");
        assert_eq!(rt; rmp.holder(511), holders[3], "{step:?}");
    }
    Ok(())
}

#[test]
fn locks_of_small_pages(rt: HostRuntime) -> Result<(), Fail> {
    let mut rmp = RmpRegion::free(rt.alloc())?;
    let steps = [
        (Step::Lock(9, 5), None, [None, None, Some(5), None]),
        // A lock elsewhere doesn't matter.
        (Step::Lock(3, 2), None, [None, Some(2), Some(5), None]),
        (Step::Lock(3, 5), Some(2), [None, Some(2), Some(5), None]),
        (Step::Lock(0, 5), None, [Some(5), Some(2), Some(5), None]),
        // An actor's own locks alone are released.
        (Step::Unlock(5), None, [None, Some(2), None, None]),
        (Step::Unlock(5), None, [None, Some(2), None, None]),
        (Step::Lock(9, 5), None, [None, Some(2), Some(5), None]),
        // The lowest frame's holder is named, and not the first that locked.
        (Step::LockAll(7), Some(2), [None, Some(2), Some(5), None]),
        (Step::Unlock(2), None, [None, None, Some(5), None]),
        (Step::LockAll(7), Some(5), [None, None, Some(5), None]),
        (Step::Unlock(5), None, [None, None, None, None]),
        (Step::LockAll(7), None, [Some(7), Some(7), Some(7), Some(7)]),
        (
            Step::Lock(511, 1),
            Some(7),
            [Some(7), Some(7), Some(7), Some(7)],
        ),
        (
            Step::LockAll(1),
            Some(7),
            [Some(7), Some(7), Some(7), Some(7)],
        ),
        (Step::Unlock(1), None, [Some(7), Some(7), Some(7), Some(7)]),
        (Step::Unlock(7), None, [None, None, None, None]),
    ];
    go(&rt, &mut rmp, &steps)
}

#[test]
fn lock_of_one_page(rt: HostRuntime) -> Result<(), Fail> {
    let mut rmp = one_page(rt.alloc())?;
    let steps = [
        (Step::Lock(9, 5), None, [Some(5), Some(5), Some(5), Some(5)]),
        (
            Step::Lock(3, 2),
            Some(5),
            [Some(5), Some(5), Some(5), Some(5)],
        ),
        (
            Step::LockAll(2),
            Some(5),
            [Some(5), Some(5), Some(5), Some(5)],
        ),
        (Step::Unlock(2), None, [Some(5), Some(5), Some(5), Some(5)]),
        (Step::Unlock(5), None, [None, None, None, None]),
        (Step::LockAll(2), None, [Some(2), Some(2), Some(2), Some(2)]),
    ];
    go(&rt, &mut rmp, &steps)?;
    // Each of the small pages has the page's holder, and one unlock releases all.
    assert!(rt; rmp.effective(0).size == PageSize::Large);
    rmp.smash();
    let steps = [
        (
            Step::Lock(3, 4),
            Some(2),
            [Some(2), Some(2), Some(2), Some(2)],
        ),
        (Step::Unlock(2), None, [None, None, None, None]),
        (Step::Lock(3, 4), None, [None, Some(4), None, None]),
    ];
    go(&rt, &mut rmp, &steps)?;
    // Locks stay where frames become free.
    rmp.free_all();
    let steps = [(Step::Unlock(1), None, [None, Some(4), None, None])];
    go(&rt, &mut rmp, &steps)
}

#[test]
fn entries(rt: HostRuntime) -> Result<(), Fail> {
    let mut rmp = RmpRegion::free(rt.alloc())?;
    for (slot, asid) in [(511, 3), (1, 4), (1, 5)] {
        assert!(rt; slot < 512);
        assert!(rt; rmp.effective(slot).size == PageSize::Small);
        rmp.write_entry(slot, entry(asid));
    }
    for (slot, want) in [
        (0, RmpEntry::free()),
        (1, entry(5)),
        (2, RmpEntry::free()),
        (510, RmpEntry::free()),
        (511, entry(3)),
    ] {
        assert!(rt; slot < 512);
        assert_eq!(rt; rmp.effective(slot), want, "{slot}");
    }
    Ok(())
}

#[test]
fn entries_of_one_page(rt: HostRuntime) -> Result<(), Fail> {
    let mut rmp = one_page(rt.alloc())?;
    let cases = [(0, 0xf_ffff_fe00), (1, 0xf_ffff_fe01), (511, 0xf_ffff_ffff)];
    for (slot, gpn) in cases {
        assert!(rt; slot < 512);
        assert_eq!(rt; rmp.effective(slot), RmpEntry { gpn, ..head() });
    }
    assert!(rt; rmp.effective(0).size == PageSize::Large);
    rmp.smash();
    for (slot, gpn) in cases {
        assert!(rt; slot < 512);
        assert_eq!(rt;
            rmp.effective(slot),
            RmpEntry {
                gpn,
                size: PageSize::Small,
                ..head()
            }
        );
    }
    rmp.free_all();
    for (slot, _) in cases {
        assert!(rt; slot < 512);
        assert_eq!(rt; rmp.effective(slot), RmpEntry::free());
    }
    Ok(())
}
