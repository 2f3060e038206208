//! The text that a command reads.
ghost use Rattle.std.specs.Prelude.{◌≡◌, ◌+◌, ◌<◌, ◌≤◌, [], length, IfOk, IfErr, IfSome, OnErr};
ghost use Rattle.snp_model.specs.Limits.{most};
ghost use Rattle.snp_model.specs.Outside.{ReadTakes, Rose, TakesAll};
ghost use Rattle.snp_top.specs.Input.{HasInputCause, TakesAtMost};

use crate::fault::CommandFault;
use outside_port::{Failed, Source};
use snp_model::Quantity;
use std::alloc::Global;

// How many bytes are asked of a source at a time.
const PIECE: usize = 65_536;

/// Reads a source to its end. Of a text that is too long, the most that a text may have and one byte are taken.
pub fn read_text<S: Source>(alloc: Global, source: &mut S) -> Result<Vec<u8>, CommandFault>
    ensures all { IfOk result (λ text. TakesAll (S.left source.old) (S.left source.new) text.items) }
    ensures short { IfOk result (λ text. length text.items ≤ most Quantity.Bytes) }
    ensures cause { IfErr result (HasInputCause (S.left source.old) (S.left source.new) (S.faults source.old) (S.faults source.new)) }
    ensures taken { TakesAtMost (most Quantity.Bytes + 1) (S.left source.old) (S.left source.new) }
    ensures later { S.faults source.old ≤ S.faults source.new }
{
    let most = Quantity::Bytes.most() as usize;
    let mut text = Vec::new(alloc);
    let mut buffer = piece_buffer();
    'pieces: while text.len() <= most {
        let room = most + 1 - text.len();
        match read_piece(source, &mut buffer, room) {
            Ok(0) => return Ok(text),
            Ok(count) => text.extend_from_slice(&buffer[..count])?,
            Err(Failed) => return Err(CommandFault::Read),
        }
    }
    Err(CommandFault::Limit {
        quantity: Quantity::Bytes,
        count: text.len() as u64,
    })
}

// A buffer for a piece.
fn piece_buffer() -> [u8; PIECE]
    ensures { 65_536 ≡ length result }
{
    [0; PIECE]
}

// Reads at most so many bytes into the front of a buffer.
fn read_piece<S: Source>(source: &mut S, buffer: &mut [u8], most: usize) -> Result<usize, Failed>
    requires some { 0 < most }
    requires place { 0 < length buffer.old }
    ensures most { IfOk result (λ n. n ≤ most) }
    ensures count { IfOk result (λ n. n ≤ length buffer.old) }
    ensures bytes { ReadTakes (S.left source.old) (S.left source.new) result buffer.new }
    ensures end { IfOk result (λ n. IfSome (S.left source.old) (λ left. n ≡ 0 → left ≡ [])) }
    ensures later { S.faults source.old ≤ S.faults source.new }
    ensures failed { OnErr result (Rose (S.faults source.old) (S.faults source.new)) }
{
    let end = buffer.len().min(most);
    source.read(&mut buffer[..end])
}
