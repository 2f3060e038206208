//! A measurement, from the bytes of a measure text to the line that tells the digest of its pages.
ghost use Rattle.std.specs.Prelude.{◌≡◌, ◌+◌, ◌≤◌, Some, IfOk, IfErr};
ghost use Rattle.snp_model.specs.Limits.{most};
ghost use Rattle.snp_top.specs.Exits.{ComesTo};
ghost use Rattle.snp_top.specs.Input.{TakesAtMost};
ghost use Rattle.snp_top.specs.Measures.{HasMeasureCause, SaysDigest};
ghost use Rattle.snp_top.specs.Replays.{ReadsText};

use crate::fault::CommandFault;
use crate::input::read_text;
use crate::words::Asked;
use launch_digest::Digest;
use measure_text::measure;
use outside_port::{Sink, Source};
use report_text::write_digest;
use snp_model::Quantity;
use std::alloc::Global;

/// Carries `measure` out: reads a measure text, and writes the line that tells its digest. Where there is
/// none, nothing is written.
pub fn carry_out_measure<S: Source, K: Sink>(
    alloc: Global,
    source: &mut S,
    sink: &mut K,
) -> Result<(), CommandFault>
    ensures came { ComesTo (Some Asked.Measure) result
        (record { left = S.left source.old; read_faults = S.faults source.old; written = K.written sink.old; write_faults = K.faults sink.old })
        (record { left = S.left source.new; read_faults = S.faults source.new; written = K.written sink.new; write_faults = K.faults sink.new }) }
    ensures taken { TakesAtMost (most Quantity.Bytes + 1) (S.left source.old) (S.left source.new) }
    ensures later { (S.faults source.old ≤ S.faults source.new) × (K.faults sink.old ≤ K.faults sink.new) }
{
    match read_digest(alloc, source) {
        Ok(digest) => match write_digest(&digest.bytes(), sink) {
            Ok(()) => Ok(()),
            Err(_) => Err(CommandFault::Write),
        },
        Err(fault) => Err(fault),
    }
}

/// Reads the digest of the pages that the text of a source says.
fn read_digest<S: Source>(alloc: Global, source: &mut S) -> Result<Digest, CommandFault>
    ensures said { IfOk result (λ digest. ReadsText (S.left source.old) (S.left source.new) (SaysDigest (λ said. digest ≡ said))) }
    ensures cause { IfErr result (HasMeasureCause (S.left source.old) (S.left source.new) (S.faults source.old) (S.faults source.new)) }
    ensures taken { TakesAtMost (most Quantity.Bytes + 1) (S.left source.old) (S.left source.new) }
    ensures later { S.faults source.old ≤ S.faults source.new }
{
    let text = match read_text(alloc, source) {
        Ok(text) => text,
        Err(fault) => return Err(fault),
    };
    match measure(text.as_slice()) {
        Ok(digest) => Ok(digest),
        Err(refused) => Err(CommandFault::Scenario {
            line: refused.line,
            reason: refused.reason,
        }),
    }
}
