use crate::{read_line, write_line};
use snp_model::{Deed, Event, Outcome, PageSize};
use std::test::Fail;

// The deeds with their texts.
const DEEDS: [(&str, Deed); 14] = [
    ("begin", Deed::Begin),
    (
        "npt 4294967295:65535 0xffffffffffffffff",
        Deed::Nested {
            frame: 4_294_967_295,
            index: 65_535,
            value: 0xffff_ffff_ffff_ffff,
        },
    ),
    (
        "gpt 0xfffffffff:0 8191 0x9007",
        Deed::Table {
            gpn: 0xf_ffff_ffff,
            index: 0,
            frame: 8191,
            value: Some(0x9007),
        },
    ),
    (
        "gpt 0x0:511 0 -",
        Deed::Table {
            gpn: 0,
            index: 511,
            frame: 0,
            value: None,
        },
    ),
    (
        "data 0x10:3 12 p",
        Deed::Access {
            gpn: 16,
            index: 3,
            frame: 12,
            private: true,
        },
    ),
    (
        "data 0x1:30 120 s",
        Deed::Access {
            gpn: 1,
            index: 30,
            frame: 120,
            private: false,
        },
    ),
    (
        "host 10:0",
        Deed::Host {
            frame: 10,
            index: 0,
        },
    ),
    (
        "lock 18446744073709551615",
        Deed::Lock {
            frame: 18_446_744_073_709_551_615,
        },
    ),
    ("lockg 255", Deed::LockContext { guest: 255 }),
    ("compute", Deed::Compute),
    (
        "commit 512 0xa00 2m",
        Deed::Commit {
            frame: 512,
            gpn: 0xa00,
            size: PageSize::Large,
        },
    ),
    (
        "commit 0 0x0 4k",
        Deed::Commit {
            frame: 0,
            gpn: 0,
            size: PageSize::Small,
        },
    ),
    ("commitg 1", Deed::CommitContext { guest: 1 }),
    ("skip", Deed::Control),
];

const FOUND: [u8; 16] = [0, 1, 0x10, 0xff, 0xab, 0, 0, 0, 0, 0, 0, 0, 0, 0, 0, 0x9e];

// The outcomes with their texts.
const OUTCOMES: [(&str, Option<Outcome>); 22] = [
    ("", None),
    (" load 0x0", Some(Outcome::Loaded(0))),
    (" opaque", Some(Outcome::Opaque)),
    (" store", Some(Outcome::Stored)),
    (
        " swap 0xffffffffffffffff",
        Some(Outcome::Swapped(0xffff_ffff_ffff_ffff)),
    ),
    (
        " cas 0x1f yes",
        Some(Outcome::Compared {
            found: 31,
            written: true,
        }),
    ),
    (
        " cas 0x10 no",
        Some(Outcome::Compared {
            found: 16,
            written: false,
        }),
    ),
    (" gp", Some(Outcome::Gp)),
    (" offline", Some(Outcome::Offline)),
    (" pf 0x80000003", Some(Outcome::Pf(0x8000_0003))),
    (" npf 0x280000007", Some(Outcome::Npf(0x2_8000_0007))),
    (" vc 0x404", Some(Outcome::Vc(0x404))),
    (" rc 0", Some(Outcome::Status(0))),
    (" rc 255", Some(Outcome::Status(255))),
    (" rc 0 cf 1", Some(Outcome::Carry(true))),
    (" rc 0 cf 0", Some(Outcome::Carry(false))),
    (" rc 3 by 2", Some(Outcome::StatusInUse { holder: 2 })),
    (" fw 0xffff", Some(Outcome::Firmware(0xffff))),
    (
        " fw 0x100 by 4294967295",
        Some(Outcome::FirmwareInUse {
            holder: 4_294_967_295,
        }),
    ),
    (
        " fw 0xb found 000110ffab000000000000000000009e kept 00000000000000000000000000000000",
        Some(Outcome::BadTag {
            found: FOUND,
            kept: [0; 16],
        }),
    ),
    (" next", Some(Outcome::Next)),
    (" skipped 8192", Some(Outcome::Skipped(8192))),
];

// What is no event line.
const NO_LINES: [&str; 40] = [
    "",
    "end 0",
    "0 1 0.0",
    "0 1 0.0 ",
    "00 1 0.0 begin",
    "0 01 0.0 begin",
    "0 1 00.0 begin",
    "0 1 0.00 begin",
    "0 1 0.0 begin ",
    " 0 1 0.0 begin",
    "0  1 0.0 begin",
    "0 1 0.0  begin",
    "0 1 0.0 begin\n",
    "0 1 0 begin",
    "0 1 0.0.0 begin",
    "0 1 0:0 begin",
    "0x0 1 0.0 begin",
    "4294967296 1 0.0 begin",
    "0 4294967296 0.0 begin",
    "0 1 0.0 Begin",
    "0 1 0.0 begin begin",
    "0 1 0.0 lock 0x1",
    "0 1 0.0 lock 18446744073709551616",
    "0 1 0.0 lockg 256",
    "0 1 0.0 npt 8:1 0x00",
    "0 1 0.0 npt 8:1 0x01",
    "0 1 0.0 npt 8:1 0xA",
    "0 1 0.0 npt 8:1 0x",
    "0 1 0.0 npt 8:1 9",
    "0 1 0.0 npt 8:65536 0x0",
    "0 1 0.0 gpt 0x1:2 3 --",
    "0 1 0.0 data 1:2 3 p",
    "0 1 0.0 commit 1 0x1 1g",
    "0 1 0.0 host 1:1 rc",
    "0 1 0.0 host 1:1 rc 256",
    "0 1 0.0 host 1:1 rc 00",
    "0 1 0.0 host 1:1 rc 3 cf 1",
    "0 1 0.0 host 1:1 fw 0x10000",
    "0 1 0.0 host 1:1 fw 11",
    "0 1 0.0 host 1:1 fw 0xb found 00 kept 00",
];

#[test]
fn lines_both_ways(rt: HostRuntime) -> Result<(), Fail> {
    for (deed_text, deed) in DEEDS {
        for (outcome_text, outcome) in OUTCOMES {
            let event = Event {
                item: 8191,
                attempt: 255,
                deed,
                outcome,
            };
            let text = format!(in rt.alloc(); "4294967295 32 8191.255 {deed_text}{outcome_text}")?;
            let mut out = [0; 256];
            let end = write_line(4_294_967_295, 32, &event, &mut out);
            assert!(rt; &out[..end] == text.as_bytes(), "{text}");
            match read_line(text.as_bytes()) {
                Some((k, actor, read)) => {
                    assert!(rt;
                        k == 4_294_967_295 && actor == 32 && read == event,
                        "{text}"
                    );
                }
                None => assert!(rt; false, "{text}"),
            }
        }
    }
    for text in NO_LINES {
        assert!(rt; read_line(text.as_bytes()).is_none(), "{text}");
    }
    Ok(())
}
