//! Each read and each write fails in turn.
use outside_port::{MemorySink, MemorySource, OpenGate};
use snp_top::locked_fleet::LockedFleet;
use snp_top::program::snp_main;
use std::alloc::{AllocError, Global};
use std::sync::Wait;
use std::test::Fail;
use std::thread::Threads;

// A scenario of one actor, so that `run` has one report.
const SCENARIO: &str = "snp 1
regions 1
guest 1 opened asid 1 iv 0 key 0000000000000000000000000000000000000000000000000000000000000000
page 8 of 1 at 0 4k valid 0 0 0
word 1 0 0x2007
word 2 0 0x3007
word 3 0 0x4007
word 4 0 0x8007
actor 1 cpu 1 vmpl 0 npt 1 flat
store 0x10 5
load 0x10
order 1*12
end
";

const PAGES: &str = "snp-measure 1
page 1 0 0 1 0 0
word 0 0x1234
page 3 1 0 0 0 0
end
";

// What fails: read and write of these numbers, from 0.
#[derive(Clone, Copy, Debug)]
struct Failing {
    read: u32,
    write: u32,
}

const NEVER: u32 = u32::MAX;

const NOTHING: Failing = Failing {
    read: NEVER,
    write: NEVER,
};

// The status of the command that these words name, over a text in pieces of 7 bytes, and what it wrote.
fn carry_out<R: Threads + Wait + Sync>(
    rt: &R,
    alloc: Global,
    line: &str,
    text: &str,
    failing: Failing,
) -> Result<(u8, MemorySink), AllocError> {
    let mut words = Vec::new(alloc);
    for word in line.split(' ') {
        words.push(String::from_str(alloc, word)?)?;
    }
    let text = Vec::from_slice(alloc, text.as_bytes())?;
    let mut source = MemorySource::over(text, 7, vec![in alloc; failing.read]?);
    let mut sink = MemorySink::with_room(alloc, 262_144, vec![in alloc; failing.write]?)?;
    let mut fleet = LockedFleet::new();
    let status = snp_main(
        rt,
        alloc,
        &words,
        &mut source,
        &mut sink,
        &OpenGate,
        &mut fleet,
    );
    Ok((status, sink))
}

// Read k fails, for each k to the last read, which gives nothing. Behind it there is no read.
#[test]
fn each_read(rt: HostRuntime) -> Result<(), Fail> {
    let alloc = rt.alloc();
    for (line, text) in [("replay", SCENARIO), ("run", SCENARIO), ("measure", PAGES)] {
        let (status, whole) = carry_out(&rt, alloc, line, text, NOTHING)?;
        assert_eq!(rt; status, 0, "{line}");
        let reads = text.len().div_ceil(7) as u32 + 1;
        for read in 0..reads {
            let failing = Failing { read, ..NOTHING };
            let (status, sink) = carry_out(&rt, alloc, line, text, failing)?;
            assert_eq!(rt; status, 5, "{line} {read}");
            assert!(rt; sink.bytes() == b"error read\n".as_slice(), "{line} {read}");
        }
        let failing = Failing {
            read: reads,
            ..NOTHING
        };
        let (status, sink) = carry_out(&rt, alloc, line, text, failing)?;
        assert_eq!(rt; status, 0, "{line}");
        assert!(rt; sink.bytes() == whole.bytes(), "{line}");
    }
    Ok(())
}

// Where write k of a command fails, with status 6, how many bytes were written, which are a proper front of the whole; and all bytes
// of the whole where the command makes no such write. Nothing where it does anything else.
fn count_written<R: Threads + Wait + Sync>(
    rt: &R,
    alloc: Global,
    (line, text): (&str, &str),
    write: u32,
    whole: &[u8],
) -> Result<Option<usize>, AllocError> {
    let failing = Failing { write, ..NOTHING };
    let (status, sink) = carry_out(rt, alloc, line, text, failing)?;
    let written = sink.bytes();
    let is_whole = status == 0 && written == whole;
    let is_front = status == 6 && written.len() < whole.len() && whole.starts_with(written);
    Ok(if is_whole || is_front {
        Some(written.len())
    } else {
        None
    })
}

// Write k fails, for each k to the last write: a longer front is written for each than for the one before it.
#[test]
fn each_write(rt: HostRuntime) -> Result<(), Fail> {
    let alloc = rt.alloc();
    for (line, text, writes) in [
        ("replay", SCENARIO, 5),
        ("run", SCENARIO, 5),
        ("measure", PAGES, 1),
        ("gen 3", "", 4_162),
        ("drill 3", "", 1),
    ] {
        let (status, whole) = carry_out(&rt, alloc, line, text, NOTHING)?;
        assert_eq!(rt; status, 0, "{line}");
        let mut front = None;
        for write in 0..writes {
            let count = count_written(&rt, alloc, (line, text), write, whole.bytes())?;
            assert!(rt; count > front, "{line} {write}");
            assert!(rt; count < Some(whole.bytes().len()), "{line} {write}");
            front = count;
        }
        let count = count_written(&rt, alloc, (line, text), writes, whole.bytes())?;
        assert_eq!(rt; count, Some(whole.bytes().len()), "{line}");
    }
    Ok(())
}

// Words that are no command, where the first write fails, or a read would. Commands that read no text don't meet a read either.
#[test]
fn without_a_text(rt: HostRuntime) -> Result<(), Fail> {
    let alloc = rt.alloc();
    for (line, write, status, written) in [
        ("x", 0, 2, ""),
        ("x", NEVER, 2, "error words\n"),
        ("replay x", 0, 2, ""),
        ("run x", 0, 2, ""),
        ("gen", 0, 2, ""),
    ] {
        let failing = Failing { read: 0, write };
        let (found, sink) = carry_out(&rt, alloc, line, SCENARIO, failing)?;
        assert_eq!(rt; found, status, "{line}");
        assert!(rt; sink.bytes() == written.as_bytes(), "{line}");
    }
    for line in ["gen 3", "drill 3"] {
        let failing = Failing { read: 0, ..NOTHING };
        let (found, _) = carry_out(&rt, alloc, line, "", failing)?;
        assert_eq!(rt; found, 0, "{line}");
    }
    Ok(())
}

// Where a write of an error line fails too, the status stays.
#[test]
fn error_lines(rt: HostRuntime) -> Result<(), Fail> {
    let alloc = rt.alloc();
    for (line, text, read, status) in [
        ("replay", SCENARIO, 0, 5),
        ("run", SCENARIO, 3, 5),
        ("measure", PAGES, 1, 5),
        ("replay", "snp 1\n", NEVER, 3),
        ("run", "snp 1\nregions 17\nend\n", NEVER, 4),
        ("measure", "snp-measure 1\n", NEVER, 3),
        ("replay", "snp 1\nregions 1\norder 1\nend\n", NEVER, 8),
    ] {
        let failing = Failing { read, write: 0 };
        let (found, sink) = carry_out(&rt, alloc, line, text, failing)?;
        assert_eq!(rt; found, status, "{line} {text}");
        assert!(rt; sink.bytes().is_empty(), "{line} {text}");
    }
    Ok(())
}
