//! Reports by hand, with what the rules of an audit answer.

use crate::{AuditFault, AuditReason, audit};
use outside_port::MemorySink;
use scenario_text::read_scenario;
use std::alloc::Global;
use std::test::Fail;

// A guest with page 0, whose processor stores 5 to word 2 and loads it again. The scenario has 13 lines.
const SMALLEST: &str =
    "snp 1\nregions 1\nguest 1 opened asid 1 iv 0 key 0000000000000000000000000000000000000000000000000000000000000000\npage 8 of 1 at 0 4k valid 0 0 0\nword 1 0 0x2007\nword 2 0 0x3007\nword 3 0 0x4007\nword 4 0 0x8007\nactor 1 cpu 1 vmpl 0 npt 1 flat\nstore 0x10 5\nload 0x10\norder 1*12\nend\n";

// Its report, line by line, from line 14 on.
const REPORT: [&str; 16] = [
    "snp-report 1\n",
    "0 1 0.0 begin\n",
    "1 1 0.0 npt 1:0 0x2007\n",
    "2 1 0.0 npt 2:0 0x3007\n",
    "3 1 0.0 npt 3:0 0x4007\n",
    "4 1 0.0 npt 4:0 0x8007\n",
    "5 1 0.0 data 0x0:2 8 p store\n",
    "6 1 1.0 begin\n",
    "7 1 1.0 npt 1:0 0x2007\n",
    "8 1 1.0 npt 2:0 0x3007\n",
    "9 1 1.0 npt 3:0 0x4007\n",
    "10 1 1.0 npt 4:0 0x8007\n",
    "11 1 1.0 data 0x0:2 8 p load 0x5\n",
    "order 1*12\n",
    "guest 1 running -\n",
    "end 12\n",
];

// An opened guest and one that isn't, a host, and firmware that launches a page for each of the two.
const LAUNCHES: &str =
    "snp 1\nregions 1\nguest 1 opened asid 1 iv 0 key 0000000000000000000000000000000000000000000000000000000000000000\nguest 2 new asid 2 iv 0 key 0000000000000000000000000000000000000000000000000000000000000000\nactor 1 host\nload 0x8000\nactor 2 fw\nlaunch_update 1 8 1 0 0 0 0\nlaunch_update 2 8 1 0 0 0 0\nend\n";

// What an audit answers.
#[derive(Clone, Copy, Debug, PartialEq, Eq)]
enum Answer {
    Yes(u32),
    Refused(u32, AuditReason),
    NotLegal(u32, Option<u64>, u64),
    SinkFailed,
    NoMemory,
}

fn told(audited: Result<u32, AuditFault>) -> Answer {
    match audited {
        Ok(count) => Answer::Yes(count),
        Err(AuditFault::Refused { line, reason }) => Answer::Refused(line, reason),
        Err(
            AuditFault::NotLegal {
                line,
                expected,
                found,
            },
        ) => Answer::NotLegal(line, expected, found),
        Err(AuditFault::Sink(_)) => Answer::SinkFailed,
        Err(AuditFault::Memory(_)) => Answer::NoMemory,
    }
}

// The report with other text in place of one of its lines.
fn changed(alloc: Global, place: usize, new: &str) -> Result<Vec<u8>, Fail> {
    let mut text = Vec::new(alloc);
    for (k, line) in REPORT.iter().enumerate() {
        let part = if k == place { new } else { *line };
        for byte in part.as_bytes() {
            text.push(*byte)?;
        }
    }
    Ok(text)
}

#[test]
fn changed_lines(rt: HostRuntime) -> Result<(), Fail> {
    let scenario = read_scenario(rt.alloc(), SMALLEST.as_bytes())?;
    let form = AuditReason::Form;
    let cases = [
        (12, "11 1 1.0 data 0x0:2 8 p load 0x5\n", Answer::Yes(12)),
        (
            12,
            "11 1 1.0 data 0x0:2 8 p load 0x6\n",
            Answer::NotLegal(26, Some(5), 6),
        ),
        // A page that isn't held, read and written.
        (
            12,
            "11 1 1.0 data 0x1:2 8 p load 0x5\n",
            Answer::NotLegal(26, None, 5),
        ),
        (
            6,
            "5 1 0.0 data 0x1:2 8 p store\n",
            Answer::NotLegal(20, None, 0),
        ),
        // What isn't private is no guest's memory, and a report needn't be of a run.
        (12, "11 1 1.0 data 0x1:2 8 s load 0x6\n", Answer::Yes(12)),
        (12, "11 1 0.7 begin gp\n", Answer::Yes(12)),
        // The first line.
        (0, "snp-report 2\n", Answer::Refused(14, form)),
        (0, "", Answer::Refused(14, form)),
        // Event lines.
        (4, "", Answer::Refused(18, form)),
        (4, "3 1 0.0 npt 3:0 0x04007\n", Answer::Refused(18, form)),
        (4, "3 1 0.0 npt 3:0 0x4007 \n", Answer::Refused(18, form)),
        (
            4,
            "3 1 0.0 npt 3:0 0x4007\n3 1 0.0 npt 3:0 0x4007\n",
            Answer::Refused(19, form),
        ),
        (
            1,
            "0 0 0.0 begin\n",
            Answer::Refused(15, AuditReason::Actor),
        ),
        (
            1,
            "0 2 9.0 begin\n",
            Answer::Refused(15, AuditReason::Actor),
        ),
        (1, "0 1 2.0 begin\n", Answer::Refused(15, AuditReason::Item)),
        (1, "1 2 0.0 begin\n", Answer::Refused(15, form)),
        (
            6,
            "5 1 0.0 data 0x0:2 8 p load 0x0\n",
            Answer::Refused(20, AuditReason::Kind),
        ),
        (
            6,
            "5 1 0.0 data 0x0:512 8 p store\n",
            Answer::Refused(20, AuditReason::Kind),
        ),
        (
            6,
            "5 1 0.0 data 0x1000000000:2 8 p store\n",
            Answer::Refused(20, AuditReason::Kind),
        ),
        (
            6,
            "5 1 0.0 commit 8 0x0 4k rc 0 cf 0\n",
            Answer::Refused(20, AuditReason::Kind),
        ),
        (
            6,
            "5 1 0.0 commit 512 0x201 2m rc 1\n",
            Answer::Refused(20, AuditReason::Kind),
        ),
        // The ending.
        (13, "order 1*11\n", Answer::Refused(27, form)),
        (13, "order 1*6 1*6\n", Answer::Refused(27, form)),
        (13, "", Answer::Refused(27, form)),
        (
            13,
            "order 1*12\n12 1 1.0 begin\n",
            Answer::Refused(28, form),
        ),
        (14, "guest 1 init -\n", Answer::Yes(12)),
        (14, "guest 1 gone -\n", Answer::Refused(28, form)),
        (14, "guest 2 running -\n", Answer::Refused(28, form)),
        (14, "guest 1 running 00\n", Answer::Refused(28, form)),
        (14, "", Answer::Refused(28, form)),
        (15, "end 11\n", Answer::Refused(29, form)),
        (15, "end 12", Answer::Refused(29, form)),
        (15, "", Answer::Refused(29, form)),
        (15, "end 12\nend 12\n", Answer::Refused(30, form)),
        (15, "end 12\nx", Answer::Refused(30, form)),
    ];
    for (place, new, want) in cases {
        let text = changed(rt.alloc(), place, new)?;
        let mut sink = MemorySink::with_room(rt.alloc(), 16, Vec::new(rt.alloc()))?;
        assert!(rt; text.len() < 4096);
        let answer = told(audit(rt.alloc(), &scenario, text.as_slice(), 14, &mut sink));
        assert_eq!(rt; answer, want, "{new}");
        let written: &[u8] = match want {
            Answer::Yes(_) => b"audited 12\n",
            _ => b"",
        };
        assert!(rt; sink.bytes() == written, "{new}");
    }
    Ok(())
}

// Firmware's launches, runs of many actors, and nothing at all.
#[test]
fn other_reports(rt: HostRuntime) -> Result<(), Fail> {
    let scenario = read_scenario(rt.alloc(), LAUNCHES.as_bytes())?;
    let cases = [
        ("", Answer::Refused(7, AuditReason::Form)),
        ("snp-report 1", Answer::Refused(7, AuditReason::Form)),
        (
            "snp-report 1\nguest 1 running -\nguest 2 absent -\nend 0\n",
            Answer::Yes(0),
        ),
        (
            "snp-report 1\nguest 1 running -\nend 0\n",
            Answer::Refused(9, AuditReason::Form),
        ),
        (
            "snp-report 1\n0 2 0.0 commit 8 0x0 4k fw 0x0\n",
            Answer::Refused(8, AuditReason::Kind),
        ),
        (
            "snp-report 1\n0 2 0.0 commit 8 0x0 4k fw 0x8\n",
            Answer::Refused(9, AuditReason::Form),
        ),
        (
            "snp-report 1\n0 2 1.0 commit 8 0x0 4k fw 0x0\norder 2*1\nguest 1 running -\nguest 2 running -\nend 1\n",
            Answer::Yes(1),
        ),
        (
            "snp-report 1\n0 1 0.0 begin\n1 2 0.0 begin\n2 1 0.0 begin\n3 2 0.0 begin\n4 1 0.0 begin\n5 2 0.0 begin\n6 1 0.0 begin\n7 2 0.0 begin\n8 1 0.0 begin\n9 2 0.0 begin\n10 1 0.0 begin\n11 2 0.0 begin\n12 1 0.0 begin\n13 2 0.0 begin\n14 1 0.0 begin\n15 2 0.0 begin\n16 1 0.0 begin\n17 1 0.0 begin\norder 1*1 2*1 1*1 2*1 1*1 2*1 1*1 2*1 1*1 2*1 1*1 2*1 1*1 2*1 1*1 2*1\norder 1*2\nguest 1 running -\nguest 2 running -\nend 18\n",
            Answer::Yes(18),
        ),
    ];
    for (text, want) in cases {
        let mut sink = MemorySink::with_room(rt.alloc(), 16, Vec::new(rt.alloc()))?;
        assert!(rt; text.len() < 4096);
        let answer = told(audit(rt.alloc(), &scenario, text.as_bytes(), 7, &mut sink));
        assert_eq!(rt; answer, want, "{text}");
    }
    Ok(())
}

// A sink that is full takes a front of the line.
#[test]
fn full_sink(rt: HostRuntime) -> Result<(), Fail> {
    let scenario = read_scenario(rt.alloc(), SMALLEST.as_bytes())?;
    let text = changed(rt.alloc(), 0, "snp-report 1\n")?;
    let mut sink = MemorySink::with_room(rt.alloc(), 9, Vec::new(rt.alloc()))?;
    assert!(rt; text.len() < 4096);
    let answer = told(audit(rt.alloc(), &scenario, text.as_slice(), 14, &mut sink));
    assert_eq!(rt; answer, Answer::SinkFailed);
    assert!(rt; sink.bytes() == b"audited 1".as_slice());
    Ok(())
}
