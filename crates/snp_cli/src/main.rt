//! The program: `snp replay < SCENARIO`, `snp run < SCENARIO`, `snp measure < MEASURE_TEXT`, `snp gen N`, `snp drill N`.
#![tactic(auto)]

mod session;
#[cfg(test)]
mod tests;

use crate::session::answer;
use outside_port::{OpenGate, ReaderSource, WriterSink};
use snp_top::locked_fleet::LockedFleet;
use std::io::{BufWriter, Read, Write};
use std::process::ExitCode;
use std::{env, io};

/// Where the runtime doesn't give the words or a buffer for the output.
const UNSTARTED: u8 = 1;

/// How many bytes of output are written at a time.
const PIECE: usize = 65_536;

fn main(rt: HostRuntime) -> ExitCode {
    let Ok(words) = command_words(&rt) else {
        return ExitCode::from(UNSTARTED);
    };
    let Ok(output) = BufWriter::with_capacity(rt.alloc(), PIECE, rt.stdout()) else {
        return ExitCode::from(UNSTARTED);
    };
    let mut source = ReaderSource::new(rt.stdin());
    let mut sink = WriterSink::new(output);
    let mut fleet = LockedFleet::new();
    ExitCode::from(answer(
        &rt,
        rt.alloc(),
        &words,
        &mut source,
        &mut sink,
        &OpenGate,
        &mut fleet,
    ))
}

// The words after the program's name.
fn command_words(rt: &HostRuntime) -> io::Result<Vec<String>> {
    let mut words = Vec::new(rt.alloc());
    for word in env::args(rt)?.skip(1) {
        words.push(word)?;
    }
    Ok(words)
}
