//! The layout of an entry, by hand: byte 0 is the lowest of word 0.

use crate::{MetaEntry, clear, entry, set};
use phys_memory::Region;
use std::test::Fail;

const PAGE: MetaEntry = MetaEntry {
    kind: 1,
    vmsa: false,
    validated: true,
    asid: 0x0301,
    gpn: 0x0f_0102_0304,
    perms: [15, 7, 3, 1],
    iv: 0x1122_3344_5566_7788,
    tag: [
        0xa0, 0xa1, 0xa2, 0xa3, 0xa4, 0xa5, 0xa6, 0xa7, 0xa8, 0xa9, 0xaa, 0xab, 0xac, 0xad, 0xae,
        0xaf,
    ],
};

const PAGE_WORDS: [u64; 8] = [
    0x0000_0301_0100_0101,
    0x0000_000f_0102_0304,
    0x0000_0000_0103_070f,
    0x1122_3344_5566_7788,
    0xa7a6_a5a4_a3a2_a1a0,
    0xafae_adac_abaa_a9a8,
    0,
    0,
];

const ROOT: MetaEntry = MetaEntry {
    kind: 2,
    vmsa: true,
    validated: false,
    asid: 1023,
    gpn: 1 << 63,
    perms: [0; 4],
    iv: 0,
    tag: [0; 16],
};

const ROOT_WORDS: [u64; 8] = [
    0x0000_03ff_0001_0201,
    0x8000_0000_0000_0000,
    0,
    0,
    0,
    0,
    0,
    0,
];

#[test]
fn written_entries(rt: HostRuntime) -> Result<(), Fail> {
    let mut memory = Region::zeroed(rt.alloc())?;
    memory.page_fill(3, u64::MAX);
    for (number, written, words) in [(0, PAGE, PAGE_WORDS), (63, ROOT, ROOT_WORDS)] {
        assert!(rt; number < 64);
        set(&mut memory, 3, number, &written);
        assert_eq!(rt; entry(&memory, 3, number), Some(written));
        for i in 0..8 {
            assert_eq!(rt; memory.load(3, 8 * number + i), words[i], "{number} {i}");
        }
    }
    assert_eq!(rt; memory.load(3, 8), u64::MAX);
    assert_eq!(rt; memory.load(3, 503), u64::MAX);

    clear(&mut memory, 3, 63);
    assert_eq!(rt; entry(&memory, 3, 63), None);
    for i in 504..512 {
        assert_eq!(rt; memory.load(3, i), 0);
    }
    assert_eq!(rt; entry(&memory, 3, 0), Some(PAGE));
    assert_eq!(rt; memory.load(3, 503), u64::MAX);
    Ok(())
}

#[test]
fn read_entries(rt: HostRuntime) -> Result<(), Fail> {
    let mut memory = Region::zeroed(rt.alloc())?;
    let cases = [
        // Bytes 6, 7, 20 to 23 and 48 to 63 are passed over, and a flag is any byte but 0.
        (
            [
                0xffff_0301_8000_0101,
                PAGE_WORDS[1],
                0xffff_ffff_0103_070f,
                PAGE_WORDS[3],
                PAGE_WORDS[4],
                PAGE_WORDS[5],
                1,
                u64::MAX,
            ],
            Some(PAGE),
        ),
        // Only 1 is in use.
        ([0, 1, 1, 1, 1, 1, 1, 1], None),
        ([0x0000_0301_0100_0102, 1, 1, 1, 1, 1, 1, 1], None),
        ([0x0000_0301_0100_01ff, 1, 1, 1, 1, 1, 1, 1], None),
    ];
    for (words, want) in cases {
        for i in 0..8 {
            memory.store(511, 8 * 20 + i, words[i]);
        }
        assert_eq!(rt; entry(&memory, 511, 20), want, "{words:?}");
        assert_eq!(rt; entry(&memory, 511, 19), None);
        assert_eq!(rt; entry(&memory, 511, 21), None);
    }
    Ok(())
}
