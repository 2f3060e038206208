//! Expected values: the digest of "abc" from NIST's examples of FIPS 180-4, that of a report from Python's hashlib.

use crate::hashing::{HashSink, hash_report};
use outside_port::write_all;
use run_journal::Journal;
use snp_model::{Deed, Event, GuestLine, GuestState, Outcome};
use std::test::Fail;

// The digest of "abc".
const ABC: [u8; 32] = [
    0xba, 0x78, 0x16, 0xbf, 0x8f, 0x01, 0xcf, 0xea, 0x41, 0x41, 0x40, 0xde, 0x5d, 0xae, 0x22, 0x23,
    0xb0, 0x03, 0x61, 0xa3, 0x96, 0x17, 0x7a, 0x9c, 0xb4, 0x10, 0xff, 0x61, 0xf2, 0x00, 0x15, 0xad,
];

#[test]
fn text_in_three_pieces(rt: HostRuntime) {
    let mut sink = HashSink::new();
    assert!(rt; write_all(&mut sink, b"a").is_ok());
    assert!(rt; write_all(&mut sink, b"b").is_ok());
    assert!(rt; write_all(&mut sink, b"c").is_ok());
    assert!(rt; sink.digest() == ABC);
}

// The digest of these lines:
//
//     snp-report 2
//     0 1 0.0 skip next
//     1 2 0.0 skip next
//     order 1*1 2*1
//     guest 1 running -
//     end 2
const REPORT: [u8; 32] = [
    0xc6, 0xe2, 0x2a, 0x96, 0xe2, 0x78, 0xc6, 0x5c, 0x9a, 0x79, 0x2d, 0xda, 0x8c, 0x59, 0x3e, 0xd7,
    0x5c, 0x12, 0x52, 0xb3, 0xea, 0xae, 0xd5, 0x69, 0xb8, 0x86, 0xe0, 0x34, 0xac, 0x21, 0x01, 0xfc,
];

#[test]
fn small_report(rt: HostRuntime) -> Result<(), Fail> {
    let alloc = rt.alloc();
    let mut journal = Journal::with_room(alloc, 2)?;
    let event = Event {
        item: 0,
        attempt: 0,
        deed: Deed::Control,
        outcome: Some(Outcome::Next),
    };
    journal.push(1, event);
    journal.push(2, event);
    let guests = vec![in alloc;
        GuestLine {
            guest: 1,
            state: GuestState::Running,
            pages: 0,
            digest: [7; 48]
        },
    ]?;
    assert!(rt; hash_report(2, &journal, &guests) == REPORT);
    Ok(())
}
