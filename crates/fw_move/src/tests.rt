//! A page that goes from one frame to another: both frames' entries and words, those of their neighbours, and the locks.
ghost use Rattle.std.specs.Prelude.{◌≡◌};
ghost use Rattle.snp_model.specs.declared.entry.PageSize.TheVariants.{Small};

use crate::{place, take};
use phys_memory::Region;
use rmp_table::RmpRegion;
use snp_model::{InUse, Kind, PageSize, RmpEntry};
use std::process::Abort;
use std::test::Fail;

// A Pre-Swap page of guest 7.
fn page() -> RmpEntry
    ensures { result.size ≡ Small }
{
    RmpEntry {
        assigned: true,
        size: PageSize::Small,
        immutable: true,
        gpn: 0x40,
        asid: 7,
        vmsa: true,
        validated: true,
        perms: [15, 7, 3, 1],
        kind: Kind::Plain,
    }
}

// The Pre-Guest page that is left of it.
fn left() -> RmpEntry
    ensures { result.size ≡ Small }
{
    RmpEntry {
        vmsa: false,
        validated: false,
        perms: [15, 0, 0, 0],
        ..page()
    }
}

// Words that are all the same.
fn words_of(word: u64) -> [u64; 512] {
    [word; 512]
}

// Writes a page of 4 KB, with its number and 5 as its first and last word.
fn write<R: Abort>(rt: &R, memory: &mut Region, rmp: &mut RmpRegion, slot: usize, entry: RmpEntry) {
    assert!(rt; slot < 512 && entry.size == PageSize::Small);
    assert!(rt; rmp.effective(slot).size == PageSize::Small);
    rmp.write_entry(slot, entry);
    memory.store(slot, 0, slot as u64);
    memory.store(slot, 511, 5);
}

// Locks a slot's page for an actor that doesn't hold it.
fn lock<R: Abort>(rt: &R, rmp: &mut RmpRegion, slot: usize, actor: u32) {
    assert!(rt; slot < 512);
    match rmp.holder(slot) {
        Some(holder) => assert!(rt; holder != actor),
        None => {}
    }
    let answer: Result<(), InUse> = rmp.lock(slot, actor);
    assert!(rt; answer.is_ok());
}

// Writes three pages, of which actor 3 locks the middle one and actor 2 the last.
fn prepare<R: Abort>(
    rt: &R,
    memory: &mut Region,
    rmp: &mut RmpRegion,
    middle: usize,
    entry: RmpEntry,
) {
    assert!(rt; 0 < middle && middle < 511);
    write(rt, memory, rmp, middle - 1, entry);
    write(rt, memory, rmp, middle, entry);
    write(rt, memory, rmp, middle + 1, entry);
    lock(rt, rmp, middle, 3);
    lock(rt, rmp, middle + 1, 2);
}

// Whether a page has this entry and these first and last words.
fn is_page<R: Abort>(
    rt: &R,
    memory: &Region,
    rmp: &RmpRegion,
    slot: usize,
    entry: RmpEntry,
    words: [u64; 2],
) -> Result<(), Fail> {
    assert!(rt; slot < 512);
    assert_eq!(rt; rmp.effective(slot), entry, "{slot}");
    assert_eq!(rt; memory.load(slot, 0), words[0], "{slot}");
    assert_eq!(rt; memory.load(slot, 511), words[1], "{slot}");
    Ok(())
}

// Whether the pages beside the middle one, and the locks, are as they were.
fn others_stay<R: Abort>(
    rt: &R,
    memory: &Region,
    rmp: &RmpRegion,
    middle: usize,
    entry: RmpEntry,
) -> Result<(), Fail> {
    assert!(rt; 0 < middle && middle < 511);
    is_page(rt, memory, rmp, middle - 1, entry, [middle as u64 - 1, 5])?;
    is_page(rt, memory, rmp, middle + 1, entry, [middle as u64 + 1, 5])?;
    assert_eq!(rt; rmp.holder(middle), Some(3));
    assert_eq!(rt; rmp.holder(middle + 1), Some(2));
    Ok(())
}

// Takes the page out of slot 9.
fn take_9<R: Abort>(
    rt: &R,
    memory: &mut Region,
    rmp: &mut RmpRegion,
    words: &mut [u64; 512],
) -> RmpEntry {
    assert!(rt; rmp.holder(9).is_some());
    assert!(rt; rmp.effective(9).size == PageSize::Small);
    take(memory, rmp, 9, words)
}

// Puts a page into slot 20.
fn place_20<R: Abort>(
    rt: &R,
    memory: &mut Region,
    rmp: &mut RmpRegion,
    moved: RmpEntry,
    words: &[u64; 512],
) {
    assert!(rt; rmp.holder(20).is_some());
    assert!(rt; moved.size == PageSize::Small);
    assert!(rt; rmp.effective(20).size == PageSize::Small);
    place(memory, rmp, 20, moved, words)
}

#[test]
fn taken(rt: HostRuntime) -> Result<(), Fail> {
    let bare = RmpEntry {
        vmsa: false,
        perms: [15, 0, 0, 0],
        gpn: 0xf_ffff_ffff,
        asid: 1023,
        ..page()
    };
    let bare_left = RmpEntry {
        validated: false,
        ..bare
    };
    // The page that is taken, and what is left in its frame.
    for (entry, want) in [(page(), left()), (bare, bare_left)] {
        let mut memory = Region::zeroed(rt.alloc())?;
        let mut rmp = RmpRegion::free(rt.alloc())?;
        prepare(&rt, &mut memory, &mut rmp, 9, entry);
        let mut words = words_of(1);
        let moved = take_9(&rt, &mut memory, &mut rmp, &mut words);
        assert_eq!(rt; moved, entry);
        assert!(rt; words[0] == 9 && words[1] == 0 && words[511] == 5);
        is_page(&rt, &memory, &rmp, 9, want, [0, 0])?;
        others_stay(&rt, &memory, &rmp, 9, entry)?;
    }
    Ok(())
}

#[test]
fn placed(rt: HostRuntime) -> Result<(), Fail> {
    let other = RmpEntry {
        vmsa: false,
        gpn: 0x41,
        kind: Kind::Firmware,
        ..page()
    };
    // The page that was taken.
    for moved in [page(), other] {
        let mut memory = Region::zeroed(rt.alloc())?;
        let mut rmp = RmpRegion::free(rt.alloc())?;
        prepare(&rt, &mut memory, &mut rmp, 20, left());
        place_20(&rt, &mut memory, &mut rmp, moved, &words_of(77));
        is_page(&rt, &memory, &rmp, 20, moved, [77, 77])?;
        others_stay(&rt, &memory, &rmp, 20, left())?;
    }
    Ok(())
}

#[test]
fn moved_within_a_region(rt: HostRuntime) -> Result<(), Fail> {
    let mut memory = Region::zeroed(rt.alloc())?;
    let mut rmp = RmpRegion::free(rt.alloc())?;
    prepare(&rt, &mut memory, &mut rmp, 9, page());
    prepare(&rt, &mut memory, &mut rmp, 20, left());
    let mut words = words_of(1);
    let moved = take_9(&rt, &mut memory, &mut rmp, &mut words);
    place_20(&rt, &mut memory, &mut rmp, moved, &words);
    is_page(&rt, &memory, &rmp, 9, left(), [0, 0])?;
    is_page(&rt, &memory, &rmp, 20, page(), [9, 5])?;
    others_stay(&rt, &memory, &rmp, 20, left())
}
