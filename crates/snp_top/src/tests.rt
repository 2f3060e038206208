//! Texts that no clause spells out, and failures outside in mid-stream.
ghost use Rattle.std.specs.Prelude.{◌<◌, Some};

use crate::batch::snp_batch;
use crate::fault::CommandFault;
use crate::input::read_text;
use crate::schedule::{BadTurn, empty_journal, play};
use machine_core::Machine;
use outside_port::{
    Failed, MemorySink, MemorySource, ReaderSource, Sink, SinkFault, Source, WriterSink, write_all,
};
use report_text::{write_line, write_report};
use run_journal::Journal;
use scenario_text::read_scenario;
use snp_model::{Deed, Event, GuestLine, GuestState, Outcome, PageSize, Quantity, Turn};
use std::alloc::{AllocError, Global};
use std::process::Abort;
use std::test::Fail;

// Event 7 of actor 2, its item 3 and attempt 1, has this line.
fn check_line(rt: &impl Abort, deed: Deed, outcome: Option<Outcome>, text: &str) {
    let event = Event {
        item: 3,
        attempt: 1,
        deed,
        outcome,
    };
    let mut out = [0; 256];
    let end = write_line(7, 2, &event, &mut out);
    assert!(rt; &out[..end] == text.as_bytes(), "{text}");
}

#[test]
fn lines(rt: HostRuntime) {
    let tag = [0, 1, 0x10, 0xff, 0xab, 0, 0, 0, 0, 0, 0, 0, 0, 0, 0, 0x9e];
    check_line(&rt, Deed::Begin, None, "7 2 3.1 begin");
    let nested = Deed::Nested {
        frame: 16,
        index: 511,
        value: 0xffff_ffff_ffff_ffff,
    };
    check_line(&rt, nested, None, "7 2 3.1 npt 16:511 0xffffffffffffffff");
    let table = Deed::Table {
        gpn: 0xf_ffff_ffff,
        index: 0,
        frame: 8191,
        value: Some(0),
    };
    check_line(&rt, table, None, "7 2 3.1 gpt 0xfffffffff:0 8191 0x0");
    let refused = Deed::Table {
        gpn: 0,
        index: 9,
        frame: 0,
        value: None,
    };
    let fault = Some(Outcome::Npf(0x2_8000_0007));
    check_line(&rt, refused, fault, "7 2 3.1 gpt 0x0:9 0 - npf 0x280000007");
    let private = Deed::Access {
        gpn: 10,
        index: 1,
        frame: 66,
        private: true,
    };
    let found = Some(Outcome::Compared {
        found: 16,
        written: true,
    });
    check_line(&rt, private, found, "7 2 3.1 data 0xa:1 66 p cas 0x10 yes");
    let shared = Deed::Access {
        gpn: 11,
        index: 2,
        frame: 67,
        private: false,
    };
    let other = Some(Outcome::Compared {
        found: 15,
        written: false,
    });
    check_line(&rt, shared, other, "7 2 3.1 data 0xb:2 67 s cas 0xf no");
    let host = Deed::Host {
        frame: 300,
        index: 17,
    };
    check_line(
        &rt,
        host,
        Some(Outcome::Loaded(9)),
        "7 2 3.1 host 300:17 load 0x9",
    );
    check_line(
        &rt,
        host,
        Some(Outcome::Opaque),
        "7 2 3.1 host 300:17 opaque",
    );
    check_line(
        &rt,
        host,
        Some(Outcome::Stored),
        "7 2 3.1 host 300:17 store",
    );
    check_line(
        &rt,
        host,
        Some(Outcome::Swapped(31)),
        "7 2 3.1 host 300:17 swap 0x1f",
    );
    let lock = Deed::Lock {
        frame: 18_446_744_073_709_551_615,
    };
    check_line(&rt, lock, None, "7 2 3.1 lock 18446744073709551615");
    let context = Deed::LockContext { guest: 8 };
    check_line(&rt, context, None, "7 2 3.1 lockg 8");
    check_line(&rt, Deed::Compute, None, "7 2 3.1 compute");
    let large = Deed::Commit {
        frame: 512,
        gpn: 1024,
        size: PageSize::Large,
    };
    check_line(
        &rt,
        large,
        Some(Outcome::Status(0)),
        "7 2 3.1 commit 512 0x400 2m rc 0",
    );
    let small = Deed::Commit {
        frame: 1,
        gpn: 2,
        size: PageSize::Small,
    };
    check_line(
        &rt,
        small,
        Some(Outcome::Carry(true)),
        "7 2 3.1 commit 1 0x2 4k rc 0 cf 1",
    );
    check_line(
        &rt,
        small,
        Some(Outcome::Carry(false)),
        "7 2 3.1 commit 1 0x2 4k rc 0 cf 0",
    );
    let commit = Deed::CommitContext { guest: 1 };
    check_line(
        &rt,
        commit,
        Some(Outcome::Firmware(0x1d)),
        "7 2 3.1 commitg 1 fw 0x1d",
    );
    check_line(&rt, Deed::Control, Some(Outcome::Next), "7 2 3.1 skip next");
    check_line(
        &rt,
        Deed::Control,
        Some(Outcome::Skipped(8192)),
        "7 2 3.1 skip skipped 8192",
    );
    check_line(&rt, Deed::Begin, Some(Outcome::Gp), "7 2 3.1 begin gp");
    check_line(
        &rt,
        Deed::Begin,
        Some(Outcome::Offline),
        "7 2 3.1 begin offline",
    );
    check_line(
        &rt,
        Deed::Begin,
        Some(Outcome::Pf(3)),
        "7 2 3.1 begin pf 0x3",
    );
    check_line(
        &rt,
        Deed::Begin,
        Some(Outcome::Vc(0x404)),
        "7 2 3.1 begin vc 0x404",
    );
    let held = Some(Outcome::StatusInUse { holder: 4 });
    check_line(&rt, context, held, "7 2 3.1 lockg 8 rc 3 by 4");
    let held = Some(Outcome::FirmwareInUse { holder: 5 });
    check_line(&rt, context, held, "7 2 3.1 lockg 8 fw 0x100 by 5");
    let bad = Some(Outcome::BadTag {
        found: tag,
        kept: [0x5a; 16],
    });
    check_line(
        &rt,
        Deed::Compute,
        bad,
        "7 2 3.1 compute fw 0xb found 000110ffab000000000000000000009e kept 5a5a5a5a5a5a5a5a5a5a5a5a5a5a5a5a",
    );
}

// Writes the report of 18 events in 17 runs, and of two guests.
fn small_report(rt: &HostRuntime, sink: &mut MemorySink) -> Result<bool, Fail> {
    let alloc = rt.alloc();
    let mut journal = Journal::with_room(alloc, 18)?;
    let event = Event {
        item: 0,
        attempt: 0,
        deed: Deed::Control,
        outcome: Some(Outcome::Next),
    };
    for k in 0..17 {
        journal.push(1 + k % 3, event);
    }
    journal.push(2, event);
    let guests = vec![in alloc;
        GuestLine {
            guest: 1,
            state: GuestState::Running,
            pages: 0,
            digest: [7; 48]
        },
        GuestLine {
            guest: 2,
            state: GuestState::Launching,
            pages: 1,
            digest: [0xc5; 48]
        },
    ]?;
    Ok(write_report(1, &journal, &guests, sink).is_ok())
}

const REPORT: &str = "snp-report 1
0 1 0.0 skip next
1 2 0.0 skip next
2 3 0.0 skip next
3 1 0.0 skip next
4 2 0.0 skip next
5 3 0.0 skip next
6 1 0.0 skip next
7 2 0.0 skip next
8 3 0.0 skip next
9 1 0.0 skip next
10 2 0.0 skip next
11 3 0.0 skip next
12 1 0.0 skip next
13 2 0.0 skip next
14 3 0.0 skip next
15 1 0.0 skip next
16 2 0.0 skip next
17 2 0.0 skip next
order 1*1 2*1 3*1 1*1 2*1 3*1 1*1 2*1 3*1 1*1 2*1 3*1 1*1 2*1 3*1 1*1
order 2*2
guest 1 running -
guest 2 launching c5c5c5c5c5c5c5c5c5c5c5c5c5c5c5c5c5c5c5c5c5c5c5c5c5c5c5c5c5c5c5c5c5c5c5c5c5c5c5c5c5c5c5c5c5c5c5c5
end 18
";

// A report of 24 lines in 7 writes, one of them for all 18 events: each fails in turn, behind so many lines. And one where
// there is no room.
#[test]
fn reports(rt: HostRuntime) -> Result<(), Fail> {
    let alloc = rt.alloc();
    for (k, whole) in [(0, 0), (1, 1), (2, 19), (3, 20), (4, 21), (5, 22), (6, 23)] {
        let failing = vec![in alloc; k]?;
        let mut sink = MemorySink::with_room(alloc, 2048, failing)?;
        assert!(rt; !small_report(&rt, &mut sink)?);
        let lines = sink.bytes().iter().filter(|byte| **byte == b'\n').count();
        assert!(rt; lines == whole);
        assert!(rt; REPORT.as_bytes().starts_with(sink.bytes()));
    }
    let mut sink = MemorySink::with_room(alloc, 2048, vec![in alloc; 7]?)?;
    assert!(rt; small_report(&rt, &mut sink)?);
    assert!(rt; sink.bytes() == REPORT.as_bytes());
    let mut full = MemorySink::with_room(alloc, 0, Vec::new(alloc))?;
    assert!(rt; !small_report(&rt, &mut full)?);
    assert!(rt; full.bytes().is_empty());
    Ok(())
}

// A source that counts its reads.
#[derive(Drop)]
struct Counted {
    source: MemorySource,
    reads: u64,
}

impl Source for Counted {
    ghost left = { λ s. Some s.source.left };

    ghost faults = { λ s. s.source.faults };

    fn read(&mut self, buf: &mut [u8]) -> Result<usize, Failed> {
        self.reads = self.reads.saturating_add(1);
        self.source.read(buf)
    }
}

// A source in memory, without reads so far, of which one fails.
fn make_counted(text: Vec<u8>, piece: usize, failing: Vec<u32>) -> Counted
    requires { 0 < piece }
{
    Counted {
        source: MemorySource::over(text, piece, failing),
        reads: 0,
    }
}

// A text of 20 bytes in pieces of 7 is read in three reads and a fourth that gives none; each of
// them fails in turn. There is no read behind the end or behind a failure.
#[test]
fn pieces(rt: HostRuntime) -> Result<(), Fail> {
    let alloc = rt.alloc();
    for k in 0..5 {
        let text = Vec::from_slice(alloc, b"twenty bytes of text")?;
        let mut source = make_counted(text, 7, vec![in alloc; k]?);
        match read_text(alloc, &mut source) {
            Ok(read) => {
                assert!(rt; k == 4);
                assert!(rt; read.as_slice() == b"twenty bytes of text".as_slice());
            }
            Err(fault) => assert!(rt; k < 4 && fault == CommandFault::Read),
        }
        assert_eq!(rt; source.reads, u64::from(k.min(3)) + 1);
    }
    Ok(())
}

// Texts of the most bytes and of one more, in pieces of 65,536 bytes. The most are read in 64 reads. The next one gives
// none, or the byte too many, and is the last one. What comes first, a failure or that byte, is the answer.
#[test]
fn long_texts(rt: HostRuntime) -> Result<(), Fail> {
    let alloc = rt.alloc();
    let passed = CommandFault::Limit {
        quantity: Quantity::Bytes,
        count: 4_194_305,
    };
    for (length, failing, fault, reads) in [
        (4_194_304, 65, None, 65),
        (4_194_305, 65, Some(passed), 65),
        (4_194_305, 64, Some(CommandFault::Read), 65),
        (4_194_305, 63, Some(CommandFault::Read), 64),
    ] {
        let text = vec![in alloc; b'#'; length]?;
        let mut source = make_counted(text, 65_536, vec![in alloc; failing]?);
        assert!(rt; read_text(alloc, &mut source).err() == fault);
        assert_eq!(rt; source.reads, reads);
    }
    Ok(())
}

// The adapters over a reader and a writer of std.
#[test]
fn adapters(rt: HostRuntime) -> Result<(), Fail> {
    let alloc = rt.alloc();
    let mut source = ReaderSource::new(b"some bytes".as_slice());
    let text = read_text(alloc, &mut source)?;
    assert!(rt; text.as_slice() == b"some bytes".as_slice());
    let mut sink = WriterSink::new(Vec::new(alloc));
    assert!(rt; write_all(&mut sink, text.as_slice()).is_ok());
    assert!(rt; sink.flush().is_ok());
    Ok(())
}

const SMALLEST: &[u8] = b"snp 1
regions 1
guest 1 opened asid 1 iv 0 key 0000000000000000000000000000000000000000000000000000000000000000
page 8 of 1 at 0 4k valid 0 0 0
word 1 0 0x2007
word 2 0 0x3007
word 3 0 0x4007
word 4 0 0x8007
actor 1 cpu 1 vmpl 0 npt 1 flat
store 0x10 5
load 0x10
order 1*12
end
";

const ITS_REPORT: &[u8] = b"snp-report 1
0 1 0.0 begin
1 1 0.0 npt 1:0 0x2007
2 1 0.0 npt 2:0 0x3007
3 1 0.0 npt 3:0 0x4007
4 1 0.0 npt 4:0 0x8007
5 1 0.0 data 0x0:2 8 p store
6 1 1.0 begin
7 1 1.0 npt 1:0 0x2007
8 1 1.0 npt 2:0 0x3007
9 1 1.0 npt 3:0 0x4007
10 1 1.0 npt 4:0 0x8007
11 1 1.0 data 0x0:2 8 p load 0x5
order 1*12
guest 1 running -
end 12
";

// The smallest scenario where read and write of these numbers fail: the status and what is written.
#[test]
fn a_replay_and_its_failures(rt: HostRuntime) -> Result<(), Fail> {
    let never = u32::MAX;
    let line = b"error read\n";
    for (read, write, room, status, written) in [
        (never, never, 1000, 0, ITS_REPORT),
        (0, never, 1000, 5, line.as_slice()),
        (3, never, 1000, 5, line.as_slice()),
        (never, 1, 1000, 6, &ITS_REPORT[..13]),
        (never, 2, 1000, 6, &ITS_REPORT[..288]),
        (never, never, 0, 6, b"".as_slice()),
        (0, 0, 1000, 5, b"".as_slice()),
    ] {
        let alloc = rt.alloc();
        let words = vec![in alloc; String::from_str(alloc, "replay")?]?;
        let text = Vec::from_slice(alloc, SMALLEST)?;
        let mut source = MemorySource::over(text, 7, vec![in alloc; read]?);
        let mut sink = MemorySink::with_room(alloc, room, vec![in alloc; write]?)?;
        assert_eq!(rt; snp_batch(alloc, &words, &mut source, &mut sink), status);
        assert!(rt; sink.bytes() == written);
    }
    Ok(())
}

// Words that are no command make no read.
#[test]
fn words_without_a_command(rt: HostRuntime) -> Result<(), Fail> {
    let alloc = rt.alloc();
    let words = vec![in alloc;
        String::from_str(alloc, "replay")?,
        String::from_str(alloc, "x")?,
    ]?;
    let mut source = make_counted(Vec::from_slice(alloc, SMALLEST)?, 7, Vec::new(alloc));
    let mut sink = MemorySink::with_room(alloc, 100, Vec::new(alloc))?;
    assert_eq!(rt; snp_batch(alloc, &words, &mut source, &mut sink), 2);
    assert!(rt; sink.bytes() == b"error words\n".as_slice());
    assert_eq!(rt; source.reads, 0);
    Ok(())
}

// A text with a line in its middle that stands there many times.
fn with_lines(
    alloc: Global,
    front: &[u8],
    line: &[u8],
    times: u32,
    back: &[u8],
) -> Result<Vec<u8>, AllocError> {
    let mut text = Vec::from_slice(alloc, front)?;
    for _ in 0..times {
        text.extend_from_slice(line)?;
    }
    text.extend_from_slice(back)?;
    Ok(text)
}

const HEAD: &[u8] = b"snp 1\nregions 1\n";

const OPENED: &[u8] = b"snp 1
regions 1
guest 1 opened asid 1 iv 0 key 0000000000000000000000000000000000000000000000000000000000000000
";

// The smallest scenario with its load alone, up to its schedule.
const LOAD: &[u8] = b"snp 1
regions 1
guest 1 opened asid 1 iv 0 key 0000000000000000000000000000000000000000000000000000000000000000
page 8 of 1 at 0 4k valid 0 0 0
word 1 0 0x2007
word 2 0 0x3007
word 3 0 0x4007
word 4 0 0x8007
actor 1 cpu 1 vmpl 0 npt 1 flat
load 0x10
";

// Texts as a front and what follows it, many times: the status, and the error line. The third is the smallest scenario,
// cut behind `load 0x`.
#[test]
fn refusals(rt: HostRuntime) -> Result<(), Fail> {
    for (front, line, times, status, error) in [
        (
            LOAD,
            b"order 1*7\nend\n".as_slice(),
            1,
            8,
            "error schedule 6 1\n",
        ),
        (
            LOAD,
            b"order 9\nend\n".as_slice(),
            1,
            8,
            "error schedule 0 9\n",
        ),
        (
            &SMALLEST[..SMALLEST.len() - 18],
            b"".as_slice(),
            0,
            3,
            "error scenario 11 cut\n",
        ),
        (HEAD, b"end\n".as_slice(), 2, 3, "error scenario 4 after\n"),
        (HEAD, b"\n".as_slice(), 2, 3, "error scenario 5 end\n"),
        (HEAD, b"page\n".as_slice(), 1, 3, "error scenario 3 form\n"),
        (
            HEAD,
            b"word x 0 0\n".as_slice(),
            1,
            3,
            "error scenario 3 number\n",
        ),
        (
            HEAD,
            b"word 0 512 0\n".as_slice(),
            1,
            3,
            "error scenario 3 range\n",
        ),
        (
            HEAD,
            b"actor 1 host\nload 4\n".as_slice(),
            1,
            3,
            "error scenario 4 align\n",
        ),
        (
            HEAD,
            b"actor 1 cpu 1 vmpl 0 npt 0 flat\n".as_slice(),
            1,
            3,
            "error scenario 3 guest\n",
        ),
        (
            OPENED,
            b"page 8 of 1 at 0 4k valid 0 0 0\n".as_slice(),
            2,
            3,
            "error scenario 5 repeat\n",
        ),
        (
            b"snp 1\n".as_slice(),
            b"regions 17\n".as_slice(),
            1,
            4,
            "error limit regions 17 16\n",
        ),
        (
            HEAD,
            b"order 1*262144\n".as_slice(),
            2,
            4,
            "error limit order 524288 262144\n",
        ),
        (
            LOAD,
            b"load 0\n".as_slice(),
            8192,
            4,
            "error limit attempts 8193 8192\n",
        ),
        (
            b"".as_slice(),
            b"#\n".as_slice(),
            2_097_153,
            4,
            "error limit bytes 4194305 4194304\n",
        ),
    ] {
        let alloc = rt.alloc();
        let words = vec![in alloc; String::from_str(alloc, "replay")?]?;
        let text = with_lines(alloc, front, line, times, b"")?;
        let mut source = MemorySource::over(text, 65_536, Vec::new(alloc));
        let mut sink = MemorySink::with_room(alloc, 100, Vec::new(alloc))?;
        let answered = snp_batch(alloc, &words, &mut source, &mut sink);
        assert!(rt; sink.bytes() == error.as_bytes(), "{error}");
        assert_eq!(rt; answered, status, "{error}");
    }
    Ok(())
}

// Replays 181 loads, and gives the status.
fn replay_loads(rt: &HostRuntime, sink: &mut MemorySink) -> Result<u8, Fail> {
    let alloc = rt.alloc();
    let words = vec![in alloc; String::from_str(alloc, "replay")?]?;
    let text = with_lines(alloc, LOAD, b"load 0x10\n", 180, b"order 1*1086\nend\n")?;
    let mut source = MemorySource::over(text, 65_536, Vec::new(alloc));
    Ok(snp_batch(alloc, &words, &mut source, sink))
}

// A report whose events take several writes: each of its writes fails in turn, behind a whole line and further on than the
// one before.
#[test]
fn long_reports(rt: HostRuntime) -> Result<(), Fail> {
    let alloc = rt.alloc();
    let mut whole = MemorySink::with_room(alloc, 65_536, vec![in alloc; 8]?)?;
    assert_eq!(rt; replay_loads(&rt, &mut whole)?, 0);
    let mut front = 0;
    for k in 0..8 {
        let mut sink = MemorySink::with_room(alloc, 65_536, vec![in alloc; k]?)?;
        assert_eq!(rt; replay_loads(&rt, &mut sink)?, 6);
        assert!(rt; whole.bytes().starts_with(sink.bytes()));
        assert!(rt; sink.bytes().len() > front || k == 0);
        assert!(rt; sink.bytes().ends_with(b"\n") || k == 0);
        front = sink.bytes().len();
    }
    Ok(())
}

// More `word` lines than there are frames, attempts or actors of any number.
#[test]
fn many_words(rt: HostRuntime) -> Result<(), Fail> {
    let alloc = rt.alloc();
    let words = vec![in alloc; String::from_str(alloc, "replay")?]?;
    let text = with_lines(alloc, HEAD, b"word 9 1 2\n", 20_000, b"end\n")?;
    let mut source = MemorySource::over(text, 65_536, Vec::new(alloc));
    let mut sink = MemorySink::with_room(alloc, 100, Vec::new(alloc))?;
    assert_eq!(rt; snp_batch(alloc, &words, &mut source, &mut sink), 0);
    assert!(rt; sink.bytes() == b"snp-report 1\nend 0\n".as_slice());
    Ok(())
}

// Schedules that name an actor once too often, and actors that aren't there.
#[test]
fn bad_turns(rt: HostRuntime) -> Result<(), Fail> {
    let alloc = rt.alloc();
    let scenario = read_scenario(alloc, SMALLEST)?;
    for (actor, count, entry) in [(1, 13, 12), (9, 1, 0), (0, 1, 0)] {
        let mut machine = Machine::build(alloc, &scenario)?;
        let mut journal = empty_journal(alloc, &scenario)?;
        let order = [Turn { actor, count }];
        let played = play(&mut machine, &mut journal, &order);
        assert_eq!(rt; played, Err(BadTurn { entry, actor }));
        assert!(rt; journal.len() == entry as usize);
        assert!(rt; machine.finished(1) == (entry == 12));
    }
    Ok(())
}

// A hypervisor's processor at a guest's page and at a free frame, with skips of each test.
const EXCHANGES: &[u8] = b"snp 1
regions 1
guest 1 opened asid 1 iv 0 key 0000000000000000000000000000000000000000000000000000000000000000
page 8 of 1 at 0 4k valid 0 0 0
actor 1 host
swap 0x8010 5
load 0x8010
skip 1 if value 0
swap 0x9000 7
cas 0x9000 7 8
skip 1 if value 7
store 0x9000 1
xor 0x9000 3
cas 0x9000 8 1
skip 8192 if bad
load 0x9000
order 1*9
end
";

const THEIR_REPORT: &[u8] = b"snp-report 1
0 1 0.0 host 8:2 pf 0x80000003
1 1 1.0 host 8:2 opaque
2 1 2.0 skip next
3 1 3.0 host 9:0 swap 0x0
4 1 4.0 host 9:0 cas 0x7 yes
5 1 5.0 skip skipped 1
6 1 7.0 host 9:0 swap 0x8
7 1 8.0 host 9:0 cas 0xb no
8 1 9.0 skip skipped 8192
order 1*9
guest 1 running -
end 9
";

// A guest processor with tables of its own: a private page, a free frame that it shares with the hypervisor, and an
// address that its tables don't map. Guest pages 1 to 4 are its tables, in frames 9 to 12.
const TABLES: &[u8] = b"snp 1
regions 1
guest 1 opened asid 1 iv 0 key 0000000000000000000000000000000000000000000000000000000000000000
page 8 of 1 at 0 4k valid 0 0 0
page 9 of 1 at 1 4k valid 0 0 0
page 10 of 1 at 2 4k valid 0 0 0
page 11 of 1 at 3 4k valid 0 0 0
page 12 of 1 at 4 4k valid 0 0 0
word 1 0 0x2007
word 2 0 0x3007
word 3 0 0x4007
word 4 0 0x8007
word 4 1 0x9007
word 4 2 0xa007
word 4 3 0xb007
word 4 4 0xc007
word 4 5 0xd007
word 8 2 7
word 9 0 0x2003
word 10 0 0x3003
word 11 0 0x4003
word 12 0 0x8000000000003
word 12 1 0x5003
actor 1 cpu 1 vmpl 0 npt 1 gcr3 1
load 0x10
store 0x1010 5
load 0x8000000000
actor 2 host
xor 0xd010 1
order 1*52 2 1*6
end
";

const ITS_WALKS: &[u8] = b"snp-report 1
0 1 0.0 begin
1 1 0.0 npt 1:0 0x2007
2 1 0.0 npt 2:0 0x3007
3 1 0.0 npt 3:0 0x4007
4 1 0.0 npt 4:1 0x9007
5 1 0.0 gpt 0x1:0 9 0x2003
6 1 0.0 npt 1:0 0x2007
7 1 0.0 npt 2:0 0x3007
8 1 0.0 npt 3:0 0x4007
9 1 0.0 npt 4:2 0xa007
10 1 0.0 gpt 0x2:0 10 0x3003
11 1 0.0 npt 1:0 0x2007
12 1 0.0 npt 2:0 0x3007
13 1 0.0 npt 3:0 0x4007
14 1 0.0 npt 4:3 0xb007
15 1 0.0 gpt 0x3:0 11 0x4003
16 1 0.0 npt 1:0 0x2007
17 1 0.0 npt 2:0 0x3007
18 1 0.0 npt 3:0 0x4007
19 1 0.0 npt 4:4 0xc007
20 1 0.0 gpt 0x4:0 12 0x8000000000003
21 1 0.0 npt 1:0 0x2007
22 1 0.0 npt 2:0 0x3007
23 1 0.0 npt 3:0 0x4007
24 1 0.0 npt 4:0 0x8007
25 1 0.0 data 0x0:2 8 p load 0x7
26 1 1.0 begin
27 1 1.0 npt 1:0 0x2007
28 1 1.0 npt 2:0 0x3007
29 1 1.0 npt 3:0 0x4007
30 1 1.0 npt 4:1 0x9007
31 1 1.0 gpt 0x1:0 9 0x2003
32 1 1.0 npt 1:0 0x2007
33 1 1.0 npt 2:0 0x3007
34 1 1.0 npt 3:0 0x4007
35 1 1.0 npt 4:2 0xa007
36 1 1.0 gpt 0x2:0 10 0x3003
37 1 1.0 npt 1:0 0x2007
38 1 1.0 npt 2:0 0x3007
39 1 1.0 npt 3:0 0x4007
40 1 1.0 npt 4:3 0xb007
41 1 1.0 gpt 0x3:0 11 0x4003
42 1 1.0 npt 1:0 0x2007
43 1 1.0 npt 2:0 0x3007
44 1 1.0 npt 3:0 0x4007
45 1 1.0 npt 4:4 0xc007
46 1 1.0 gpt 0x4:1 12 0x5003
47 1 1.0 npt 1:0 0x2007
48 1 1.0 npt 2:0 0x3007
49 1 1.0 npt 3:0 0x4007
50 1 1.0 npt 4:5 0xd007
51 1 1.0 data 0x5:2 13 s store
52 2 0.0 host 13:2 swap 0x5
53 1 2.0 begin
54 1 2.0 npt 1:0 0x2007
55 1 2.0 npt 2:0 0x3007
56 1 2.0 npt 3:0 0x4007
57 1 2.0 npt 4:1 0x9007
58 1 2.0 gpt 0x1:1 9 0x0 pf 0x0
order 1*52 2*1 1*6
guest 1 running -
end 59
";

#[test]
fn replays(rt: HostRuntime) -> Result<(), Fail> {
    for (scenario, report) in [(EXCHANGES, THEIR_REPORT), (TABLES, ITS_WALKS)] {
        let alloc = rt.alloc();
        let words = vec![in alloc; String::from_str(alloc, "replay")?]?;
        let text = Vec::from_slice(alloc, scenario)?;
        let mut source = MemorySource::over(text, 4096, Vec::new(alloc));
        let mut sink = MemorySink::with_room(alloc, 4096, Vec::new(alloc))?;
        assert_eq!(rt; snp_batch(alloc, &words, &mut source, &mut sink), 0);
        assert!(rt; sink.bytes() == report);
    }
    Ok(())
}
