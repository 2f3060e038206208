//! The entry test and the test of a page's words by rows, sealed pages beside another AES-256-GCM, and what becomes of the pages of each command. What is
//! sealed here was sealed by `cryptography`, Python's binding of OpenSSL, too: tags and words are its answers.
ghost use Rattle.std.specs.Prelude.{◌≡◌, ◌<◌, None, Some};
ghost use Rattle.snp_model.specs.declared.entry.PageSize.TheVariants.{Small};
ghost use Rattle.snp_model.specs.Firmware.{entry_of};

use crate::{
    entry_test, metadata_in, metadata_out, owned, release, restore, seal_metadata, seal_page,
    unseal_page, words_test,
};
use guest_context::GuestContext;
use meta_page::set;
use phys_memory::Region;
use rmp_table::RmpRegion;
use snp_model::{Command, FwRefusal, GuestSpec, InUse, Kind, MetaEntry, PageSize, Part, RmpEntry};
use std::process::Abort;
use std::test::Fail;

const COUNTER: u64 = 0x0123_4567_89ab_cdef;

const PAGE_TAG: [u8; 16] = [
    0x12, 0x8e, 0xa6, 0x9f, 0x95, 0xca, 0x53, 0xe7, 0xa6, 0x2e, 0xe3, 0x54, 0xee, 0x94, 0xe8, 0x38,
];

const METADATA_TAG: [u8; 16] = [
    0xd7, 0xa7, 0xde, 0x50, 0xe5, 0x4d, 0xe6, 0x5e, 0xeb, 0xda, 0x22, 0xff, 0x0d, 0x19, 0xcc, 0xd0,
];

// The context of guest 7 with a key of 32 such bytes.
fn context(key: u8) -> GuestContext {
    GuestContext::from_spec(&GuestSpec {
        opened: true,
        asid: 7,
        iv: COUNTER,
        key: [key; 32],
    })
}

// A Pre-Swap page of guest 7.
fn page() -> RmpEntry
    ensures { result.size ≡ Small }
{
    RmpEntry {
        assigned: true,
        size: PageSize::Small,
        immutable: true,
        gpn: 0xf_2345_6789,
        asid: 7,
        vmsa: true,
        validated: true,
        perms: [15, 7, 3, 1],
        kind: Kind::Plain,
    }
}

// A page without a guest.
fn own(immutable: bool, kind: Kind) -> RmpEntry {
    RmpEntry {
        immutable,
        gpn: 0,
        asid: 0,
        vmsa: false,
        validated: false,
        perms: [0; 4],
        kind,
        ..page()
    }
}

// The entry of that page, sealed.
fn page_entry() -> MetaEntry {
    MetaEntry {
        kind: 1,
        vmsa: true,
        validated: true,
        asid: 7,
        gpn: 0xf_2345_6789,
        perms: [15, 7, 3, 1],
        iv: COUNTER,
        tag: PAGE_TAG,
    }
}

// Words that are all the same.
fn words_of(word: u64) -> [u64; 512] {
    [word; 512]
}

// The words of a page: each is its number.
fn numbered() -> [u64; 512] {
    let mut words = words_of(0);
    for index in 0..512 {
        words[index] = index as u64;
    }
    words
}

// The exclusive or of all words.
fn folded(words: &[u64; 512]) -> u64 {
    let mut all = 0;
    for word in words {
        all ^= *word;
    }
    all
}

#[test]
fn sealed_pages(rt: HostRuntime) -> Result<(), Fail> {
    let mut words = numbered();
    let entry = seal_page(&context(3), &page(), &mut words);
    assert_eq!(rt; entry, page_entry());
    let mut same = numbered();
    let metadata = seal_metadata(&context(3), &mut same);
    let want = MetaEntry {
        kind: 2,
        vmsa: false,
        validated: false,
        asid: 7,
        gpn: 0x8000_0000_0000_0000,
        perms: [0; 4],
        iv: COUNTER,
        tag: METADATA_TAG,
    };
    assert_eq!(rt; metadata, want);
    for sealed in [words, same] {
        assert_eq!(rt; sealed[0], 0x869e_6b3d_4ed5_98d4);
        assert_eq!(rt; sealed[1], 0x61ae_198e_4db6_48dd);
        assert_eq!(rt; sealed[511], 0xb08d_d6a7_3d68_10d7);
        assert_eq!(rt; folded(&sealed), 0x9fe0_677f_2d7f_bafb);
    }
    // And they are opened again.
    assert_eq!(rt; unseal_page(&context(3), &entry, &mut words), Ok(()));
    assert_eq!(rt; unseal_page(&context(3), &metadata, &mut same), Ok(()));
    assert!(rt; words == numbered() && same == numbered());
    Ok(())
}

#[test]
fn tags_that_differ(rt: HostRuntime) -> Result<(), Fail> {
    let good = page_entry();
    let other_gpn = [
        0x71, 0x10, 0x0b, 0x2b, 0x67, 0xe0, 0x04, 0x89, 0x63, 0x67, 0xc5, 0xcf, 0xc9, 0x4b, 0x78,
        0x9a,
    ];
    let other_asid = [
        0x7a, 0xe3, 0x1a, 0x68, 0x2d, 0x6b, 0x81, 0xcc, 0x99, 0x8c, 0x46, 0xdf, 0xbe, 0xa0, 0xb0,
        0x64,
    ];
    let other_counter = [
        0x3d, 0xba, 0x09, 0xf1, 0x5c, 0x22, 0x6e, 0xe9, 0x84, 0xbb, 0xe0, 0x1e, 0x89, 0xd2, 0xf6,
        0xcd,
    ];
    let other_key = [
        0x29, 0xd2, 0x1a, 0xf5, 0x68, 0x95, 0x1e, 0xa1, 0xfd, 0x49, 0x71, 0xd6, 0xed, 0x25, 0x8f,
        0xe4,
    ];
    let other_text = [
        0x90, 0x33, 0x46, 0x74, 0x02, 0x22, 0x05, 0x3c, 0xbb, 0x4c, 0x41, 0xc9, 0x75, 0x0a, 0xfc,
        0xf8,
    ];
    // The entry, the key's bytes, what is changed of the last word, and the tag of the ciphertext.
    for (entry, key, change, tag) in [
        (good, 3, 0, PAGE_TAG),
        // What isn't additional data doesn't count.
        (
            MetaEntry {
                kind: 2,
                vmsa: false,
                validated: false,
                perms: [0; 4],
                ..good
            },
            3,
            0,
            PAGE_TAG,
        ),
        (
            MetaEntry {
                gpn: 0xf_2345_678a,
                ..good
            },
            3,
            0,
            other_gpn,
        ),
        (MetaEntry { asid: 8, ..good }, 3, 0, other_asid),
        (
            MetaEntry {
                iv: COUNTER + 1,
                ..good
            },
            3,
            0,
            other_counter,
        ),
        (good, 4, 0, other_key),
        (good, 3, 1 << 63, other_text),
        (
            MetaEntry {
                tag: other_key,
                ..good
            },
            3,
            0,
            PAGE_TAG,
        ),
    ] {
        let mut words = numbered();
        let _ = seal_page(&context(3), &page(), &mut words);
        words[511] ^= change;
        let before = words;
        let found = unseal_page(&context(key), &entry, &mut words);
        let same = entry.tag == tag;
        let want = if same {
            Ok(())
        } else {
            Err(FwRefusal::BadTag {
                found: tag,
                kept: entry.tag,
            })
        };
        assert_eq!(rt; found, want, "{entry:?}");
        assert!(rt; words == if same { numbered() } else { before });
    }
    Ok(())
}

// The commands that name this entry.
#[tactic(auto, unfolding(snp_model::specs::Firmware::entry_of))]
fn swap_out(entry: u8) -> Command
    ensures { entry_of result ≡ Some entry }
{
    Command::SwapOut {
        guest: 1,
        source: 8,
        target: 11,
        metadata: 9,
        entry,
    }
}

#[tactic(auto, unfolding(snp_model::specs::Firmware::entry_of))]
fn swap_in(entry: u8) -> Command
    ensures { entry_of result ≡ Some entry }
{
    Command::SwapIn {
        guest: 1,
        source: 11,
        target: 8,
        metadata: 9,
        entry,
    }
}

#[tactic(auto, unfolding(snp_model::specs::Firmware::entry_of))]
fn md_out(entry: u8) -> Command
    ensures { entry_of result ≡ Some entry }
{
    Command::MdOut {
        guest: 1,
        source: 8,
        target: 11,
        metadata: 9,
        entry,
    }
}

#[tactic(auto, unfolding(snp_model::specs::Firmware::entry_of))]
fn md_in(entry: u8) -> Command
    ensures { entry_of result ≡ Some entry }
{
    Command::MdIn {
        guest: 1,
        source: 11,
        target: 8,
        metadata: 9,
        entry,
    }
}

// A command that names no entry.
#[tactic(auto, unfolding(snp_model::specs::Firmware::entry_of))]
fn md_init() -> Command
    ensures { entry_of result ≡ None }
{
    Command::MdInit { frame: 9 }
}

// The answers to these four for guest 7, and to a command that names no entry.
fn answers(memory: &Region, rmp: &RmpRegion, number: u8) -> [Result<(), FwRefusal>; 5]
    requires { number < 64 }
{
    [
        entry_test(memory, rmp, 9, &swap_out(number), 7),
        entry_test(memory, rmp, 9, &swap_in(number), 7),
        entry_test(memory, rmp, 9, &md_out(number), 7),
        entry_test(memory, rmp, 9, &md_in(number), 7),
        entry_test(memory, rmp, 9, &md_init(), 7),
    ]
}

#[test]
fn entry_tests(rt: HostRuntime) -> Result<(), Fail> {
    let good = page_entry();
    let mut memory = Region::zeroed(rt.alloc())?;
    let rmp = RmpRegion::free(rt.alloc())?;
    // Entries of guest 7 and of guest 8; the others of the page aren't in use.
    for (number, kind, asid) in [(0, 1, 7), (1, 2, 7), (2, 1, 8), (3, 2, 8), (63, 3, 7)] {
        set(&mut memory, 9, number, &MetaEntry { kind, asid, ..good });
    }
    // Near an entry in use: its first byte is another.
    memory.store(9, 8 * 4, 0x0700_0102);
    let ok: Result<(), FwRefusal> = Ok(());
    let invalid: Result<(), FwRefusal> = Err(FwRefusal::Status(0x1b));
    let owner: Result<(), FwRefusal> = Err(FwRefusal::Status(0x1c));
    // The number of the entry, and the answers for guest 7.
    for (number, want) in [
        (0, [invalid, ok, invalid, invalid, ok]),
        (1, [invalid, invalid, invalid, ok, ok]),
        (2, [invalid, owner, invalid, invalid, ok]),
        (3, [invalid, invalid, invalid, owner, ok]),
        (4, [ok, invalid, ok, invalid, ok]),
        (5, [ok, invalid, ok, invalid, ok]),
        (62, [ok, invalid, ok, invalid, ok]),
        (63, [invalid, invalid, invalid, invalid, ok]),
    ] {
        assert!(rt; number < 64);
        assert!(rt; answers(&memory, &rmp, number) == want, "{number}");
    }
    Ok(())
}

#[test]
fn owners(rt: HostRuntime) {
    // The first word of entry 5 and that of entry 63, and whether all that is in use is guest 7's.
    for (first, last, want) in [
        (0, 0, true),
        (0x7_0000_0001, 0, true),
        (0x7_0000_0001, 0x7_0101_0201, true),
        (0x8_0000_0001, 0x7_0000_0001, false),
        (0x7_0000_0001, 0x8_0000_0001, false),
        (0x107_0000_0001, 0, false),
        (0x1_0007_0000_0001, 0, true),
        (0x8_0000_0000, 0x8_0000_0002, true),
    ] {
        let mut words = words_of(0);
        words[8 * 5] = first;
        words[8 * 63] = last;
        words[8 * 63 + 1] = 0x8_0000_0001;
        assert_eq!(rt; owned(&words, 7), want, "{first} {last}");
    }
}

// Another command that names no entry, whose source is a metadata page.
#[tactic(auto, unfolding(snp_model::specs::Firmware::entry_of))]
fn md_root_out() -> Command
    ensures { entry_of result ≡ None }
{
    Command::MdRootOut {
        guest: 1,
        source: 9,
        target: 11,
    }
}

// What the words of slot 9 answer for guest 7: as the source of four commands, as a target, and as the metadata page of
// three, which name entry 5.
fn word_answers(memory: &Region, rmp: &RmpRegion) -> [Result<(), FwRefusal>; 8] {
    [
        words_test(memory, rmp, 9, &md_out(5), Part::Source, 7),
        words_test(memory, rmp, 9, &md_root_out(), Part::Source, 7),
        words_test(memory, rmp, 9, &swap_out(5), Part::Source, 7),
        words_test(memory, rmp, 9, &md_in(5), Part::Source, 7),
        words_test(memory, rmp, 9, &md_out(5), Part::Target, 7),
        words_test(memory, rmp, 9, &md_out(5), Part::Metadata, 7),
        words_test(memory, rmp, 9, &swap_in(5), Part::Metadata, 7),
        words_test(memory, rmp, 9, &md_in(5), Part::Metadata, 7),
    ]
}

#[test]
fn word_tests(rt: HostRuntime) -> Result<(), Fail> {
    let rmp = RmpRegion::free(rt.alloc())?;
    let ok: Result<(), FwRefusal> = Ok(());
    let invalid: Result<(), FwRefusal> = Err(FwRefusal::Status(0x1b));
    let owner: Result<(), FwRefusal> = Err(FwRefusal::Status(0x1c));
    // The first words of entries 5 and 63, and the answers.
    for (first, last, want) in [
        (0, 0, [ok, ok, ok, ok, ok, ok, invalid, invalid]),
        // Both are guest 7's.
        (
            0x7_0000_0101,
            0x7_0000_0201,
            [ok, ok, ok, ok, ok, invalid, ok, invalid],
        ),
        (
            0x7_0000_0201,
            0x7_0000_0101,
            [ok, ok, ok, ok, ok, invalid, invalid, ok],
        ),
        // One is another's.
        (
            0x7_0000_0201,
            0x8_0000_0101,
            [owner, owner, ok, ok, ok, invalid, invalid, ok],
        ),
        (
            0x8_0000_0101,
            0,
            [owner, owner, ok, ok, ok, invalid, owner, invalid],
        ),
        (
            0x8_0000_0201,
            0,
            [owner, owner, ok, ok, ok, invalid, invalid, owner],
        ),
        (
            0x107_0000_0101,
            0,
            [owner, owner, ok, ok, ok, invalid, owner, invalid],
        ),
        // The two bytes behind the ASID don't count.
        (
            0x1_0007_0000_0101,
            0,
            [ok, ok, ok, ok, ok, invalid, ok, invalid],
        ),
        // Near an entry in use: the first byte is another.
        (
            0x8_0000_0100,
            0x8_0000_0102,
            [ok, ok, ok, ok, ok, ok, invalid, invalid],
        ),
    ] {
        let mut memory = Region::zeroed(rt.alloc())?;
        memory.store(9, 8 * 5, first);
        memory.store(9, 8 * 63, last);
        // No first words, and no words of the page.
        memory.store(9, 8 * 63 + 1, 0x8_0000_0101);
        memory.store(8, 8 * 5, 0x8_0000_0101);
        memory.store(10, 0, 0x8_0000_0101);
        assert!(rt; word_answers(&memory, &rmp) == want, "{first} {last}");
    }
    Ok(())
}

// What a command does with the page of slot 9.
#[derive(Clone, Copy, Debug)]
enum Change {
    Release,
    Restore,
    MetadataOut,
    MetadataIn,
}

// Makes it, with words of 77 each.
fn make<R: Abort>(rt: &R, memory: &mut Region, rmp: &mut RmpRegion, change: Change) {
    assert!(rt; rmp.holder(9).is_some());
    assert!(rt; rmp.effective(9).size == PageSize::Small);
    match change {
        Change::Release => release(memory, rmp, 9),
        Change::Restore => restore(memory, rmp, 9, &page_entry(), &words_of(77)),
        Change::MetadataOut => metadata_out(memory, rmp, 9),
        Change::MetadataIn => metadata_in(memory, rmp, 9, &words_of(77)),
    }
}

// Locks a slot's page for an actor that doesn't hold it.
fn lock<R: Abort>(rt: &R, rmp: &mut RmpRegion, slot: usize, actor: u32) {
    assert!(rt; slot < 512);
    match rmp.holder(slot) {
        Some(holder) => assert!(rt; holder != actor),
        None => {}
    }
    let answer: Result<(), InUse> = rmp.lock(slot, actor);
    assert!(rt; answer.is_ok());
}

// Writes a page of 4 KB, whose first and last words are 5.
fn write<R: Abort>(rt: &R, memory: &mut Region, rmp: &mut RmpRegion, slot: usize, entry: RmpEntry) {
    assert!(rt; slot < 512 && entry.size == PageSize::Small);
    assert!(rt; rmp.effective(slot).size == PageSize::Small);
    rmp.write_entry(slot, entry);
    memory.store(slot, 0, 5);
    memory.store(slot, 511, 5);
}

// Writes this page to slots 8, 9 and 10. Actor 3 locks slot 9, and actor 2 slot 8.
fn prepare<R: Abort>(rt: &R, memory: &mut Region, rmp: &mut RmpRegion, entry: RmpEntry) {
    write(rt, memory, rmp, 8, entry);
    write(rt, memory, rmp, 9, entry);
    write(rt, memory, rmp, 10, entry);
    lock(rt, rmp, 9, 3);
    lock(rt, rmp, 8, 2);
}

// Whether a page has this entry, and this as its first and last word.
fn is_page<R: Abort>(
    rt: &R,
    memory: &Region,
    rmp: &RmpRegion,
    slot: usize,
    entry: RmpEntry,
    word: u64,
) -> Result<(), Fail> {
    assert!(rt; slot < 512);
    assert_eq!(rt; rmp.effective(slot), entry, "{slot}");
    assert_eq!(rt; memory.load(slot, 0), word, "{slot}");
    assert_eq!(rt; memory.load(slot, 511), word, "{slot}");
    Ok(())
}

#[test]
fn pages(rt: HostRuntime) -> Result<(), Fail> {
    let reclaim = own(false, Kind::Plain);
    let guest = RmpEntry {
        gpn: 0x41,
        vmsa: false,
        validated: false,
        perms: [15, 0, 0, 0],
        ..page()
    };
    // What is done with the page, its entry before and after, and what becomes of its words 5.
    for (change, entry, want, word) in [
        (Change::Release, page(), reclaim, 0),
        (Change::Release, guest, reclaim, 0),
        (Change::Restore, guest, page(), 77),
        (
            Change::Restore,
            RmpEntry { asid: 3, ..guest },
            RmpEntry { asid: 3, ..page() },
            77,
        ),
        (
            Change::MetadataOut,
            own(true, Kind::Metadata),
            own(true, Kind::Firmware),
            0,
        ),
        (
            Change::MetadataIn,
            own(true, Kind::Firmware),
            own(true, Kind::Metadata),
            77,
        ),
    ] {
        let mut memory = Region::zeroed(rt.alloc())?;
        let mut rmp = RmpRegion::free(rt.alloc())?;
        prepare(&rt, &mut memory, &mut rmp, entry);
        make(&rt, &mut memory, &mut rmp, change);
        is_page(&rt, &memory, &rmp, 9, want, word)?;
        is_page(&rt, &memory, &rmp, 8, entry, 5)?;
        is_page(&rt, &memory, &rmp, 10, entry, 5)?;
        assert_eq!(rt; rmp.holder(9), Some(3), "{change:?}");
        assert_eq!(rt; rmp.holder(8), Some(2), "{change:?}");
    }
    Ok(())
}
