ghost use Rattle.std.specs.Prelude.{◌≡◌, ◌+◌, ◌≤◌, ◌&&◌, bytes_eq, length, drop};
ghost use Rattle.snp_model.specs.Lines.{word};
ghost use Rattle.report_text.specs.EventLines.{
  bare_outcome,
  carry_outcome,
  compared_outcome,
  counted_outcome,
  ending_of,
  firmware_in_use,
  long_outcome,
  named_outcome,
  outcome_of,
  status_in_use,
  tags_outcome,
  valued_outcome,
};

use crate::pieces::{at, count, read_hex, read_one_of, read_tag, read_u8, read_u32};
use script_text::number::{is_word, read_fixed};
use script_text::words::Words;
use snp_model::{Outcome, Reason};

// An outcome of one word.
#[tactic(auto, unfolding(crate::specs::EventLines::bare_outcome))]
fn read_bare(word: &[u8]) -> Result<Outcome, Reason>
    ensures { result ≡ bare_outcome word.now }
{
    if is_word(word, b"opaque") {
        Ok(Outcome::Opaque)
    } else if is_word(word, b"store") {
        Ok(Outcome::Stored)
    } else if is_word(word, b"gp") {
        Ok(Outcome::Gp)
    } else if is_word(word, b"offline") {
        Ok(Outcome::Offline)
    } else if is_word(word, b"next") {
        Ok(Outcome::Next)
    } else {
        Err(Reason::Form)
    }
}

// `rc STATUS`, `skipped COUNT`
#[tactic(auto, unfolding(crate::specs::EventLines::counted_outcome))]
fn read_counted(name: &[u8], word: &[u8]) -> Result<Outcome, Reason>
    ensures { result ≡ counted_outcome name.now word.now }
{
    if is_word(name, b"rc") {
        let status = read_u8(word)?;
        Ok(Outcome::Status(status))
    } else if is_word(name, b"skipped") {
        let count = read_u32(word)?;
        Ok(Outcome::Skipped(count))
    } else {
        Err(Reason::Form)
    }
}

// An outcome of a name and a word in base 16.
#[tactic(auto, unfolding(crate::specs::EventLines::valued_outcome))]
fn read_valued(name: &[u8], value: u64) -> Result<Outcome, Reason>
    ensures { result ≡ valued_outcome name.now value }
{
    if is_word(name, b"load") {
        Ok(Outcome::Loaded(value))
    } else if is_word(name, b"swap") {
        Ok(Outcome::Swapped(value))
    } else if is_word(name, b"pf") {
        Ok(Outcome::Pf(value))
    } else if is_word(name, b"npf") {
        Ok(Outcome::Npf(value))
    } else if is_word(name, b"vc") {
        Ok(Outcome::Vc(value))
    } else if is_word(name, b"fw") && value < 1 << 16 {
        Ok(Outcome::Firmware(value as u16))
    } else {
        Err(Reason::Form)
    }
}

// An outcome of a name and a number.
#[tactic(auto, unfolding(crate::specs::EventLines::named_outcome))]
fn read_named(name: &[u8], word: &[u8]) -> Result<Outcome, Reason>
    ensures { result ≡ named_outcome name.now word.now }
{
    if is_word(name, b"rc") || is_word(name, b"skipped") {
        read_counted(name, word)
    } else {
        let value = read_hex(word)?;
        read_valued(name, value)
    }
}

// `cas FOUND yes`, `cas FOUND no`
#[tactic(auto, unfolding(crate::specs::EventLines::compared_outcome))]
fn read_compared(words: &Words<'_>, from: usize) -> Result<Outcome, Reason>
    requires near { from ≤ 7 }
    requires words { length words.now ≡ from + 3 }
    ensures { result ≡ compared_outcome (drop from words.now) }
{
    read_fixed(at(words, from, 0), b"cas")?;
    let found = read_hex(at(words, from, 1))?;
    let written = read_one_of(at(words, from, 2), b"yes", b"no")?;
    Ok(Outcome::Compared { found, written })
}

// `rc 0 cf CARRY`
#[tactic(auto, unfolding(crate::specs::EventLines::carry_outcome))]
fn read_carry(words: &Words<'_>, from: usize) -> Result<Outcome, Reason>
    requires near { from ≤ 7 }
    requires words { length words.now ≡ from + 4 }
    ensures { result ≡ carry_outcome (drop from words.now) }
{
    read_fixed(at(words, from, 1), b"0")?;
    let carry = read_one_of(at(words, from, 3), b"1", b"0")?;
    Ok(Outcome::Carry(carry))
}

// `rc 3 by ACTOR`
#[tactic(auto, unfolding(crate::specs::EventLines::status_in_use))]
fn read_status_in_use(words: &Words<'_>, from: usize) -> Result<Outcome, Reason>
    requires near { from ≤ 7 }
    requires words { length words.now ≡ from + 4 }
    ensures { result ≡ status_in_use (drop from words.now) }
{
    read_fixed(at(words, from, 1), b"3")?;
    let holder = read_u32(at(words, from, 3))?;
    Ok(Outcome::StatusInUse { holder })
}

// `fw 0x100 by ACTOR`
#[tactic(auto, unfolding(crate::specs::EventLines::firmware_in_use))]
fn read_firmware_in_use(words: &Words<'_>, from: usize) -> Result<Outcome, Reason>
    requires near { from ≤ 7 }
    requires words { length words.now ≡ from + 4 }
    ensures { result ≡ firmware_in_use (drop from words.now) }
{
    read_fixed(at(words, from, 1), b"0x100")?;
    let holder = read_u32(at(words, from, 3))?;
    Ok(Outcome::FirmwareInUse { holder })
}

// Whether four words are of this row.
fn is_long(words: &Words<'_>, from: usize, name: &[u8], third: &[u8]) -> bool
    requires near { from ≤ 7 }
    requires words { length words.now ≡ from + 4 }
    ensures { result ≡ (bytes_eq (word (drop from words.now) 0) name.now && bytes_eq (word (drop from words.now) 2) third.now) }
{
    is_word(at(words, from, 0), name) && is_word(at(words, from, 2), third)
}

// An outcome of four words.
#[tactic(auto, unfolding(crate::specs::EventLines::long_outcome))]
fn read_long(words: &Words<'_>, from: usize) -> Result<Outcome, Reason>
    requires near { from ≤ 7 }
    requires words { length words.now ≡ from + 4 }
    ensures { result ≡ long_outcome (drop from words.now) }
{
    if is_long(words, from, b"rc", b"cf") {
        read_carry(words, from)
    } else if is_long(words, from, b"rc", b"by") {
        read_status_in_use(words, from)
    } else if is_long(words, from, b"fw", b"by") {
        read_firmware_in_use(words, from)
    } else {
        Err(Reason::Form)
    }
}

// `fw 0xb found TAG kept TAG`
#[tactic(auto, unfolding(crate::specs::EventLines::tags_outcome))]
fn read_tags(words: &Words<'_>, from: usize) -> Result<Outcome, Reason>
    requires near { from ≤ 7 }
    requires words { length words.now ≡ from + 6 }
    ensures { result ≡ tags_outcome (drop from words.now) }
{
    read_fixed(at(words, from, 0), b"fw")?;
    read_fixed(at(words, from, 1), b"0xb")?;
    read_fixed(at(words, from, 2), b"found")?;
    let found = read_tag(at(words, from, 3))?;
    read_fixed(at(words, from, 4), b"kept")?;
    let kept = read_tag(at(words, from, 5))?;
    Ok(Outcome::BadTag { found, kept })
}

// How an attempt ends.
#[tactic(auto, unfolding(crate::specs::EventLines::outcome_of))]
fn read_outcome(words: &Words<'_>, from: usize) -> Result<Outcome, Reason>
    requires near { from ≤ 7 }
    requires words { from ≤ length words.now }
    ensures { result ≡ outcome_of (drop from words.now) }
{
    let count = count(words, from);
    if count == 1 {
        read_bare(at(words, from, 0))
    } else if count == 2 {
        read_named(at(words, from, 0), at(words, from, 1))
    } else if count == 3 {
        read_compared(words, from)
    } else if count == 4 {
        read_long(words, from)
    } else if count == 6 {
        read_tags(words, from)
    } else {
        Err(Reason::Form)
    }
}

/// The words behind the deed.
#[tactic(auto, unfolding(crate::specs::EventLines::ending_of))]
pub fn read_ending(words: &Words<'_>, from: usize) -> Result<Option<Outcome>, Reason>
    requires near { from ≤ 7 }
    requires words { from ≤ length words.now }
    ensures { result ≡ ending_of (drop from words.now) }
{
    if count(words, from) == 0 {
        Ok(None)
    } else {
        let outcome = read_outcome(words, from)?;
        Ok(Some(outcome))
    }
}
