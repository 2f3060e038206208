ghost use Rattle.std.specs.Prelude.{◌≡◌, [], ◌≤◌, ◌<◌, length, IfOk, OnOk, OnErr};
ghost use Rattle.snp_model.specs.Outside.{Adds, EndsWhereEmpty, ReadTakes, Rose, WriteAdds};
ghost use Rattle.outside_port.specs.Counts.{faults_after_read, faults_after_write, one_more};
ghost use Rattle.outside_port.specs.Holding.{Tells, WriteHolds};

use crate::{Failed, Sink, Source};
use std::io::{Read, Write};
use std::marker::Model;

/// A source over a reader of std. It tells the bytes that the reader tells. The count of faults
/// rises at each error and stops at its last value.
#[derive(Debug, Drop)]
pub struct ReaderSource<R: Read> {
    reader: R,
    faults: u64,
}

impl<R: Read> Model for ReaderSource<R> {
    ghost use Rattle.outside_port.specs.Adapters.{Inlet};

    ghost Value = { Inlet };

    ghost view = { λ s. record { left = R.remaining s.reader; faults = s.faults } };
}

impl<R: Read> ReaderSource<R> {
    /// A source over this reader, without faults.
    pub fn new(reader: R) -> ReaderSource<R>
        ensures { result ≡ record { left = R.remaining reader; faults = 0 } }
    {
        ReaderSource { reader, faults: 0 }
    }
}

impl<R: Read> Source for ReaderSource<R> {
    ghost left = { λ s. s.left };

    ghost faults = { λ s. s.faults };

    fn read(&mut self, buf: &mut [u8]) -> Result<usize, Failed>
        ensures count { IfOk result (λ n. n ≤ length buf.old) }
        ensures bytes { ReadTakes self.old.left self.new.left result buf.new }
        ensures end { EndsWhereEmpty self.old.left result buf.old }
        ensures later { self.old.faults ≤ self.new.faults }
        ensures failed { OnErr result (Rose self.old.faults self.new.faults) }
        ensures counts { self.new.faults ≡ faults_after_read self.old.faults result }
    {
        match self.reader.read(buf) {
            Ok(count) => Ok(count),
            Err(_) => {
                self.faults = self.faults.saturating_add(1);
                Err(Failed)
            }
        }
    }
}

/// A sink over a writer of std. It tells the bytes that the writer tells. The count of faults rises
/// at each error and at each write that takes no byte of a piece, and stops at its last value.
#[derive(Debug, Drop)]
pub struct WriterSink<W: Write> {
    writer: W,
    faults: u64,
}

impl<W: Write> Model for WriterSink<W> {
    ghost use Rattle.outside_port.specs.Adapters.{Outlet};

    ghost Value = { Outlet };

    ghost view = { λ s. record { written = W.contents s.writer; faults = s.faults } };
}

impl<W: Write> WriterSink<W> {
    /// A sink over this writer, without faults.
    pub fn new(writer: W) -> WriterSink<W>
        ensures { result ≡ record { written = W.contents writer; faults = 0 } }
    {
        WriterSink { writer, faults: 0 }
    }

    /// Hands on what the writer holds back, as a `BufWriter` does. A failure counts among the faults.
    pub fn flush(&mut self) -> Result<(), Failed>
        ensures written { Adds self.old.written self.new.written [] }
        ensures later { self.old.faults ≤ self.new.faults }
        ensures failed { OnErr result (Rose self.old.faults self.new.faults) }
        ensures still { OnOk result (self.new.faults ≡ self.old.faults) }
        ensures counts { OnErr result (self.new.faults ≡ one_more self.old.faults) }
    {
        if self.writer.flush().is_err() {
            self.faults = self.faults.saturating_add(1);
            return Err(Failed);
        }
        Ok(())
    }
}

impl<W: Write> Sink for WriterSink<W> {
    ghost written = { λ s. s.written };

    ghost holds = { λ s text. Tells s.written text };

    ghost faults = { λ s. s.faults };

    fn write(&mut self, bytes: &[u8]) -> Result<usize, Failed>
        ensures count { IfOk result (λ n. n ≤ length bytes.now) }
        ensures adds { WriteAdds self.old.written self.new.written result bytes.now }
        ensures held { WriteHolds (Tells self.old.written) (Tells self.new.written) result bytes.now }
        ensures later { self.old.faults ≤ self.new.faults }
        ensures failed { OnErr result (Rose self.old.faults self.new.faults) }
        ensures stuck { IfOk result
            (λ n. n ≡ 0 → 0 < length bytes.now → Rose self.old.faults self.new.faults) }
        ensures counts { self.new.faults ≡ faults_after_write self.old.faults result bytes.now }
    {
        match self.writer.write(bytes) {
            Ok(count) => {
                if count == 0 && !bytes.is_empty() {
                    self.faults = self.faults.saturating_add(1);
                }
                Ok(count)
            }
            Err(_) => {
                self.faults = self.faults.saturating_add(1);
                Err(Failed)
            }
        }
    }
}
