//! Runs by workers that a gate holds until others have passed it.
ghost use Rattle.std.specs.Prelude.{◌≡◌, ◌<◌, ◌≤◌};

use crate::locked_fleet::LockedFleet;
use crate::program::snp_main;
use outside_port::{Gate, MemorySink, MemorySource, OpenGate};
use std::alloc::{AllocError, Global};
use std::rt::Clock;
use std::sync::Wait;
use std::sync::atomic::{AtomicU64, Ordering};
use std::test::Fail;
use std::thread::{self, Threads};
use std::time::Duration;

// Four guest processors, which load a word of a page twice, and a hypervisor that gives the guest another frame and maps the
// page to it.
const TEXT: &str = "snp 1
regions 1
guest 1 opened asid 1 iv 0 key 0000000000000000000000000000000000000000000000000000000000000000
page 8 of 1 at 0 4k valid 0 0 0
word 1 0 0x2007
word 2 0 0x3007
word 3 0 0x4007
word 4 0 0x8007
actor 1 cpu 1 vmpl 0 npt 1 flat
load 0x10
load 0x10
actor 2 cpu 1 vmpl 0 npt 1 flat
load 0x10
load 0x10
actor 3 cpu 1 vmpl 0 npt 1 flat
load 0x10
load 0x10
actor 4 cpu 1 vmpl 0 npt 1 flat
load 0x10
load 0x10
actor 5 host
rmpupdate 9 4k 1 1 0 0
store 0x4000 0x9007
";

// How many milliseconds a wait may take.
const TURNS: u32 = 10_000;

// How often each actor has passed a gate, by its number. Place 0 counts the waits that came to their end in vain.
#[derive(Drop)]
struct Passed<'a, C: Clock> {
    clock: &'a C,
    counts: [AtomicU64; 6],
}

impl<'a, C: Clock> Passed<'a, C> {
    fn none(clock: &'a C) -> Passed<'a, C> {
        Passed {
            clock,
            counts: [
                AtomicU64::new(0),
                AtomicU64::new(0),
                AtomicU64::new(0),
                AtomicU64::new(0),
                AtomicU64::new(0),
                AtomicU64::new(0),
            ],
        }
    }

    fn count(&self, actor: u32) -> u64 {
        match self.counts.get(actor as usize) {
            Some(count) => count.load(Ordering::SeqCst),
            None => 0,
        }
    }

    fn add(&self, actor: u32) {
        if let Some(count) = self.counts.get(actor as usize) {
            count.fetch_add(1, Ordering::SeqCst);
        }
    }

    // Waits until an actor has passed so often.
    fn wait_for(&self, actor: u32, count: u64) {
        for _ in 0..TURNS {
            if self.count(actor) >= count {
                return;
            }
            thread::sleep(self.clock, Duration::from_millis(1));
        }
        self.add(0);
    }
}

// Holds actor 1 before its first step until actor 2 has passed once, and actor 2 before its second step until actor 1 has.
#[derive(Drop)]
struct Crossing<'a, C: Clock>(Passed<'a, C>);

impl<C: Clock> Gate for Crossing<'_, C> {
    fn pass<R: Wait>(&self, rt: &R, actor: u32) {
        let count = self.0.count(actor);
        if actor == 1 && count == 0 {
            self.0.wait_for(2, 1);
        }
        if actor == 2 && count == 1 {
            self.0.wait_for(1, 1);
        }
        self.0.add(actor);
    }
}

// Holds every other actor before its first step until this one has passed twice.
#[derive(Drop)]
struct Leading<'a, C: Clock> {
    first: u32,
    passed: Passed<'a, C>,
}

impl<C: Clock> Gate for Leading<'_, C> {
    fn pass<R: Wait>(&self, rt: &R, actor: u32) {
        if actor != self.first && self.passed.count(actor) == 0 {
            self.passed.wait_for(self.first, 2);
        }
        self.passed.add(actor);
    }
}

// The status of a command over a text, and what it wrote.
fn carry_out<G: Gate + Sync, R: Threads + Wait + Sync>(
    rt: &R,
    alloc: Global,
    word: &str,
    text: Vec<u8>,
    gate: &G,
) -> Result<(u8, MemorySink), AllocError> {
    let words = vec![in alloc; String::from_str(alloc, word)?]?;
    let mut sink = MemorySink::with_room(alloc, 65_536, Vec::new(alloc))?;
    let mut source = MemorySource::over(text, 4096, Vec::new(alloc));
    let mut fleet = LockedFleet::new();
    let status = snp_main(rt, alloc, &words, &mut source, &mut sink, gate, &mut fleet);
    Ok((status, sink))
}

// The text with the order lines of a report, and its last line.
fn with_order(alloc: Global, report: &[u8]) -> Result<Vec<u8>, AllocError> {
    let mut text = Vec::from_slice(alloc, TEXT.as_bytes())?;
    for line in report.split(|byte| *byte == b'\n') {
        if line.starts_with(b"order") {
            text.extend_from_slice(line)?;
            text.extend_from_slice(b"\n")?;
        }
    }
    text.extend_from_slice(b"end\n")?;
    Ok(text)
}

// How many events of an actor a report has. The number of an event begins its line, and that of its actor follows.
fn events_of(report: &[u8], actor: u32) -> u64 {
    let mut count: u64 = 0;
    for line in report.split(|byte| *byte == b'\n') {
        let mut words = line.split(|byte| *byte == b' ');
        let numbered = words
            .next()
            .is_some_and(|word| word.first().is_some_and(u8::is_ascii_digit));
        let of_actor = words.next() == Some([b'0' + (actor % 10) as u8].as_slice());
        if numbered && of_actor {
            count = count.saturating_add(1);
        }
    }
    count
}

// Whether the first event of a report is of an actor.
fn begins_with(report: &[u8], actor: u32) -> bool {
    let start = [b'0', b' ', b'0' + (actor % 10) as u8, b' '];
    let mut lines = report.split(|byte| *byte == b'\n');
    let _ = lines.next();
    lines.next().is_some_and(|line| line.starts_with(&start))
}

// Runs the text behind a gate. The report of its order lines, replayed, is the same.
fn run_behind<G: Gate + Sync, R: Threads + Wait + Sync>(
    rt: &R,
    alloc: Global,
    gate: &G,
) -> Result<(bool, MemorySink), AllocError> {
    let (run, sink) = carry_out(rt, alloc, "run", with_order(alloc, b"")?, gate)?;
    let (replay, again) = carry_out(
        rt,
        alloc,
        "replay",
        with_order(alloc, sink.bytes())?,
        &OpenGate,
    )?;
    let same = run == 0 && replay == 0 && again.bytes() == sink.bytes();
    Ok((same, sink))
}

#[test]
fn a_run_is_replayed(rt: HostRuntime) -> Result<(), Fail> {
    let (same, sink) = run_behind(&rt, rt.alloc(), &OpenGate)?;
    assert!(rt; same);
    assert!(rt; sink.bytes().starts_with(b"snp-report 1\n0 "));
    Ok(())
}

#[test]
fn two_workers_wait_for_each_other(rt: HostRuntime) -> Result<(), Fail> {
    let gate = Crossing(Passed::none(&rt));
    let (same, sink) = run_behind(&rt, rt.alloc(), &gate)?;
    assert!(rt; same);
    assert_eq!(rt; gate.0.count(0), 0);
    for actor in 1..=5 {
        assert!(rt; gate.0.count(actor) >= events_of(sink.bytes(), actor));
    }
    Ok(())
}

#[test]
fn each_worker_goes_first(rt: HostRuntime) -> Result<(), Fail> {
    for first in 1..=5_u32 {
        let gate = Leading {
            first,
            passed: Passed::none(&rt),
        };
        let (same, sink) = run_behind(&rt, rt.alloc(), &gate)?;
        assert!(rt; same);
        assert_eq!(rt; gate.passed.count(0), 0);
        for actor in 1..=5 {
            assert!(rt; gate.passed.count(actor) >= events_of(sink.bytes(), actor));
        }
        assert!(rt; begins_with(sink.bytes(), first));
    }
    Ok(())
}

// A scenario without actors has run to its end at once, whatever its order lines name.
#[test]
fn a_run_without_actors(rt: HostRuntime) -> Result<(), Fail> {
    let alloc = rt.alloc();
    for (text, status, report) in [
        ("snp 1\nregions 1\nend\n", 0, "snp-report 1\nend 0\n"),
        (
            "snp 1\nregions 1\norder 1\nend\n",
            0,
            "snp-report 1\nend 0\n",
        ),
        ("snp 1\nregions 17\nend\n", 4, "error limit regions 17 16\n"),
        ("snp 1\nregions 1\n", 3, "error scenario 3 end\n"),
    ] {
        let bytes = Vec::from_slice(alloc, text.as_bytes())?;
        let (found, sink) = carry_out(&rt, alloc, "run", bytes, &OpenGate)?;
        assert_eq!(rt; found, status, "{text}");
        assert!(rt; sink.bytes() == report.as_bytes(), "{text}");
    }
    Ok(())
}
