ghost use Rattle.std.specs.Prelude.{◌≡◌, ◌+◌, ◌-◌, ◌^◌, ◌<◌, ◌≤◌, ◌↔◌, min, length, [], ◌++◌, vec_capacity, IfOk, OnErr, IsErr, IsTrue, Contains, take, Some};
ghost use Rattle.snp_model.specs.Outside.{EndsWhereEmpty, ReadTakes, Rose, WriteAdds};
ghost use Rattle.outside_port.specs.Counts.{faults_after_read, faults_after_write, one_more};
ghost use Rattle.outside_port.specs.Holding.{Tells, WriteHolds};

use crate::{Failed, Sink, Source};
use std::alloc::{AllocError, Global};
use std::marker::Model;

/// A source over a text in memory. It gives at most so many bytes a read, and fails at the reads
/// whose numbers, from 0, are given.
#[derive(Debug, Drop)]
pub struct MemorySource {
    text: Vec<u8>,
    at: usize,
    piece: usize,
    failing: Vec<u32>,
    calls: u64,
    faults: u64,
}

impl Model for MemorySource {
    ghost use Rattle.std.specs.Prelude.{◌<◌, ◌≤◌, drop, length};
    ghost use Rattle.outside_port.specs.Memory.{Feed};

    ghost Value = { Feed };

    ghost view = { λ s. record { left = drop s.at s.text.items; piece = s.piece; failing = s.failing.items; calls = s.calls; faults = s.faults } };

    ghost invariant = { λ s. (s.at ≤ length s.text.items) × (0 < s.piece) };
}

impl MemorySource {
    /// A source of this text.
    pub fn over(text: Vec<u8>, piece: usize, failing: Vec<u32>) -> MemorySource
        requires { 0 < piece }
        ensures { result ≡ record { left = text.items; piece = piece; failing = failing.items; calls = 0; faults = 0 } }
    {
        MemorySource {
            text,
            at: 0,
            piece,
            failing,
            calls: 0,
            faults: 0,
        }
    }
}

impl Source for MemorySource {
    ghost left = { λ s. Some s.left };

    ghost faults = { λ s. s.faults };

    fn read(&mut self, buf: &mut [u8]) -> Result<usize, Failed>
        ensures count { IfOk result (λ n. n ≤ length buf.old) }
        ensures bytes { ReadTakes (Some self.old.left) (Some self.new.left) result buf.new }
        ensures end { EndsWhereEmpty (Some self.old.left) result buf.old }
        ensures later { self.old.faults ≤ self.new.faults }
        ensures failed { OnErr result (Rose self.old.faults self.new.faults) }
        ensures gives { IfOk result (λ n. n ≡ min (min self.old.piece (length buf.old)) (length self.old.left)) }
        ensures fails { IsErr result ↔ Contains self.old.failing self.old.calls }
        ensures calls { self.new.calls ≡ one_more self.old.calls }
        ensures counts { self.new.faults ≡ faults_after_read self.old.faults result }
        ensures piece { self.new.piece ≡ self.old.piece }
        ensures failing { self.new.failing ≡ self.old.failing }
    {
        let call = self.calls;
        self.calls = call.saturating_add(1);
        if is_among(&self.failing, call) {
            self.faults = self.faults.saturating_add(1);
            return Err(Failed);
        }
        let (_, left) = self.text.as_slice().split_at(self.at);
        let count = self.piece.min(buf.len()).min(left.len());
        let (piece, _) = left.split_at(count);
        put_front(buf, piece);
        self.at += count;
        Ok(count)
    }
}

/// A sink into memory. It takes bytes while there is room and then none, and fails at the writes
/// whose numbers, from 0, are given.
#[derive(Debug, Drop)]
pub struct MemorySink {
    bytes: Vec<u8>,
    room: usize,
    failing: Vec<u32>,
    calls: u64,
    faults: u64,
}

impl Model for MemorySink {
    ghost use Rattle.std.specs.Prelude.{◌≤◌, length, vec_capacity};
    ghost use Rattle.outside_port.specs.Memory.{Tape};

    ghost Value = { Tape };

    ghost view = { λ s. record { bytes = s.bytes.items; room = s.room; failing = s.failing.items; calls = s.calls; faults = s.faults } };

    ghost invariant = { λ s. (length s.bytes.items ≤ s.room) × (s.room ≤ vec_capacity s.bytes) };
}

impl MemorySink {
    /// An empty sink with room for so many bytes, for which it takes memory.
    pub fn with_room(
        alloc: Global,
        room: usize,
        failing: Vec<u32>,
    ) -> Result<MemorySink, AllocError>
        ensures { IfOk result (λ sink. sink ≡ record { bytes = []; room = room; failing = failing.items; calls = 0; faults = 0 }) }
    {
        Ok(MemorySink {
            bytes: Vec::with_capacity(alloc, room)?,
            room,
            failing,
            calls: 0,
            faults: 0,
        })
    }

    /// The bytes that were taken.
    pub fn bytes(&self) -> &[u8]
        ensures { result.now ≡ self.now.bytes }
    {
        self.bytes.as_slice()
    }
}

impl Sink for MemorySink {
    ghost written = { λ s. Some s.bytes };

    ghost holds = { λ s text. Tells (Some s.bytes) text };

    ghost faults = { λ s. s.faults };

    fn write(&mut self, bytes: &[u8]) -> Result<usize, Failed>
        ensures count { IfOk result (λ n. n ≤ length bytes.now) }
        ensures adds { WriteAdds (Some self.old.bytes) (Some self.new.bytes) result bytes.now }
        ensures held { WriteHolds (Tells (Some self.old.bytes)) (Tells (Some self.new.bytes)) result bytes.now }
        ensures later { self.old.faults ≤ self.new.faults }
        ensures failed { OnErr result (Rose self.old.faults self.new.faults) }
        ensures stuck { IfOk result
            (λ n. n ≡ 0 → 0 < length bytes.now → Rose self.old.faults self.new.faults) }
        ensures takes { IfOk result (λ n. n ≡ min (length bytes.now) (self.old.room - length self.old.bytes)) }
        ensures fails { IsErr result ↔ Contains self.old.failing self.old.calls }
        ensures calls { self.new.calls ≡ one_more self.old.calls }
        ensures counts { self.new.faults ≡ faults_after_write self.old.faults result bytes.now }
        ensures room { self.new.room ≡ self.old.room }
        ensures failing { self.new.failing ≡ self.old.failing }
    {
        let call = self.calls;
        self.calls = call.saturating_add(1);
        if is_among(&self.failing, call) {
            self.faults = self.faults.saturating_add(1);
            return Err(Failed);
        }
        let count = bytes.len().min(self.room - self.bytes.len());
        if count == 0 && !bytes.is_empty() {
            self.faults = self.faults.saturating_add(1);
        }
        let (taken, _) = bytes.split_at(count);
        append(&mut self.bytes, taken);
        Ok(count)
    }
}

// Whether a call's number is among those that fail.
fn is_among(failing: &Vec<u32>, call: u64) -> bool
    ensures { IsTrue result ↔ Contains failing.now.items call }
{
    failing.iter().any(|number| u64::from(*number) == call)
}

// Writes a piece into the front of a buffer.
fn put_front(buf: &mut [u8], piece: &[u8])
    requires { length piece.now ≤ length buf.old }
    ensures { take (length piece.now) buf.new ≡ piece.now }
{
    buf[..piece.len()].copy_from_slice(piece);
}

// Adds bytes to a vector that has room for them.
fn append(bytes: &mut Vec<u8>, taken: &[u8])
    requires { length bytes.old.items + length taken.now ≤ vec_capacity bytes.old }
    ensures items { bytes.new.items ≡ bytes.old.items ++ taken.now }
    ensures capacity { vec_capacity bytes.new ≡ vec_capacity bytes.old }
{
    for byte in taken {
        bytes.push_reserved(*byte);
    }
}
