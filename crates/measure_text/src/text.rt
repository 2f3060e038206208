ghost use Rattle.std.specs.Prelude.{◌≡◌, ◌≤◌, length};
ghost use Rattle.snp_model.specs.MeasureText.{hashing, kept_of, measure_end};
ghost use Rattle.snp_model.specs.Reading.{most_bytes};
ghost use Rattle.measure_text.specs.Answers.{Answers};
ghost use Rattle.measure_text.specs.Steps.{Says, made_of};

use crate::reading::{Made, fit};
use launch_digest::Digest;
use script_text::words::{Words, cut};
use snp_model::Reason;

/// The first line of a measure text that is wrong, counted from 1, and why.
#[derive(Clone, Copy, Debug, PartialEq, Eq)]
pub struct RefusedLine {
    pub line: u32,
    pub reason: Reason,
}

// The end of a text, whose line of this number would be what no line feed ends.
#[tactic(auto, unfolding(snp_model::specs::MeasureText::measure_end))]
fn end(line: u32, made: &Made, rest: &[u8]) -> Result<Digest, RefusedLine>
    ensures { Says result (measure_end line (made_of made.now) rest.now) }
{
    if !rest.is_empty() {
        return Err(RefusedLine {
            line,
            reason: Reason::Cut,
        });
    }
    match made {
        Made::Ended(digest) => Ok(*digest),
        Made::Untitled => Err(RefusedLine {
            line,
            reason: Reason::End,
        }),
        Made::Paged(_) => Err(RefusedLine {
            line,
            reason: Reason::End,
        }),
    }
}

// Reads a text line by line, and keeps the digest of its pages.
fn read_lines(text: &[u8]) -> Result<Digest, RefusedLine>
    requires { length text.now ≤ most_bytes }
    ensures { Says result (kept_of hashing text.now) }
{
    let mut made = Made::Untitled;
    let mut words = Words::new();
    let mut line: u32 = 1;
    let mut rest = text;
    'lines: while let Some((bytes, more)) = cut(rest, b'\n') {
        match fit(&mut made, &mut words, bytes) {
            Ok(()) => {}
            Err(reason) => return Err(RefusedLine { line, reason }),
        }
        line += 1;
        rest = more;
    }
    end(line, &made, rest)
}

/// The launch digest of the pages that a measure text says, in a time linear in it. One digest and the words of one page
/// are kept, and no memory is taken. The text has at most so many bytes as any text may have.
pub fn measure(text: &[u8]) -> Result<Digest, RefusedLine>
    requires { length text.now ≤ most_bytes }
    ensures { Answers result text.now }
{
    read_lines(text)
}
