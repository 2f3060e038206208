ghost use Rattle.std.specs.Prelude.{◌≡◌, ◌+◌, ◌<◌, ◌≤◌, ◌^◌, length, drop, map, true, IfOk};
ghost use Rattle.std.specs.Bool.{OnTrue};
ghost use Rattle.std.specs.List.{list_all, range_with_len};
ghost use Rattle.snp_model.specs.Lines.{word, is_hex_digit};
ghost use Rattle.snp_model.specs.ScenarioLines.{key_byte};
ghost use Rattle.report_text.specs.EventLines.{
  attempt_word,
  begins,
  decimal_below,
  frame_word,
  gpn_word,
  hex_word,
  is_fewest,
  one_of,
  read_word,
  tag_word,
};

use script_text::number::{all_hex, digit_value, is_word, read_decimal, read_number};
use script_text::words::{Words, cut};
use snp_model::Reason;

/// The word at a place behind others.
#[inline(always)]
#[tactic(auto, using(crate::proofs::PieceLaws::word_behind))]
pub fn at<'a>(words: &Words<'a>, from: usize, k: usize) -> &'a [u8]
    requires near { (from ≤ 7) × (k ≤ 5) }
    requires within { from + k < length words.now }
    ensures { result.now ≡ word (drop from words.now) k }
{
    words.at(from + k)
}

/// How many words there are from a place on.
#[inline(always)]
pub fn count(words: &Words<'_>, from: usize) -> usize
    requires { from ≤ length words.now }
    ensures { result ≡ length (drop from words.now) }
{
    words.count() - from
}

/// Whether the words from a place on begin with this one, and are at least so many.
pub fn begins(words: &Words<'_>, from: usize, name: &[u8], least: usize) -> bool
    requires near { from ≤ 7 }
    requires within { from < length words.now }
    ensures row { result ≡ begins (drop from words.now) name.now least }
    ensures count { OnTrue result (from + least ≤ length words.now) }
{
    is_word(at(words, from, 0), name) && count(words, from) >= least
}

/// A number in base 10, below an end.
#[tactic(auto, unfolding(crate::specs::EventLines::decimal_below))]
pub fn read_decimal_below(end: u64, word: &[u8]) -> Result<u64, Reason>
    ensures read { result ≡ decimal_below end word.now }
    ensures bounds { IfOk result (λ n. n < end) }
{
    let n = read_decimal(word)?;
    if n < end { Ok(n) } else { Err(Reason::Range) }
}

/// A number in base 10, below 2^32.
pub fn read_u32(word: &[u8]) -> Result<u32, Reason>
    ensures { result ≡ decimal_below (2 ^ 32) word.now }
{
    let n = read_decimal_below(1 << 32, word)?;
    Ok(n as u32)
}

/// A number in base 10, below 2^8.
pub fn read_u8(word: &[u8]) -> Result<u8, Reason>
    ensures { result ≡ decimal_below (2 ^ 8) word.now }
{
    let n = read_decimal_below(1 << 8, word)?;
    Ok(n as u8)
}

// A number in base 10, below 2^16.
fn read_u16(word: &[u8]) -> Result<u16, Reason>
    ensures { result ≡ decimal_below (2 ^ 16) word.now }
{
    let n = read_decimal_below(1 << 16, word)?;
    Ok(n as u16)
}

// Whether a word begins with `0x` and no leading zero follows.
fn is_fewest(word: &[u8]) -> bool
    ensures { result ≡ is_fewest word.now }
{
    word.len() >= 3 && word[0] == b'0' && word[1] == b'x' && (word.len() == 3 || word[2] != b'0')
}

/// A number in base 16 with the fewest digits, after `0x`.
#[tactic(auto, unfolding(crate::specs::EventLines::hex_word))]
pub fn read_hex(word: &[u8]) -> Result<u64, Reason>
    ensures { result ≡ hex_word word.now }
{
    if is_fewest(word) {
        read_number(word)
    } else {
        Err(Reason::Number)
    }
}

/// `ITEM.ATTEMPT`
#[tactic(auto, unfolding(crate::specs::EventLines::attempt_word))]
pub fn read_attempt(word: &[u8]) -> Result<(u32, u32), Reason>
    ensures { result ≡ attempt_word word.now }
{
    match cut(word, b'.') {
        None => Err(Reason::Form),
        Some((before, behind)) => {
            let item = read_u32(before)?;
            let attempt = read_u32(behind)?;
            Ok((item, attempt))
        }
    }
}

/// `FRAME:INDEX`
#[tactic(auto, unfolding(crate::specs::EventLines::frame_word))]
pub fn read_frame(word: &[u8]) -> Result<(u32, u16), Reason>
    ensures { result ≡ frame_word word.now }
{
    match cut(word, b':') {
        None => Err(Reason::Form),
        Some((before, behind)) => {
            let frame = read_u32(before)?;
            let index = read_u16(behind)?;
            Ok((frame, index))
        }
    }
}

/// `GPN:INDEX`, where the guest page number is in base 16.
#[tactic(auto, unfolding(crate::specs::EventLines::gpn_word))]
pub fn read_gpn(word: &[u8]) -> Result<(u64, u16), Reason>
    ensures { result ≡ gpn_word word.now }
{
    match cut(word, b':') {
        None => Err(Reason::Form),
        Some((before, behind)) => {
            let gpn = read_hex(before)?;
            let index = read_u16(behind)?;
            Ok((gpn, index))
        }
    }
}

/// A word that was read, or a dash where it was refused.
#[tactic(auto, unfolding(crate::specs::EventLines::read_word))]
pub fn read_read(word: &[u8]) -> Result<Option<u64>, Reason>
    ensures { result ≡ read_word word.now }
{
    if is_word(word, b"-") {
        Ok(None)
    } else {
        let value = read_hex(word)?;
        Ok(Some(value))
    }
}

/// Which of two words this is.
#[tactic(auto, unfolding(crate::specs::EventLines::one_of))]
pub fn read_one_of(word: &[u8], first: &[u8], second: &[u8]) -> Result<bool, Reason>
    ensures { result ≡ one_of word.now first.now second.now }
{
    if is_word(word, first) {
        Ok(true)
    } else if is_word(word, second) {
        Ok(false)
    } else {
        Err(Reason::Form)
    }
}

// The byte that two digits spell.
fn tag_byte(word: &[u8], k: usize) -> u8
    requires digits { length word.now ≡ 32 }
    requires hex { list_all is_hex_digit word.now ≡ true }
    requires place { k < 16 }
    ensures { result ≡ key_byte word.now k }
{
    16 * digit_value(word[2 * k]) + digit_value(word[2 * k + 1])
}

// The bytes that 32 digits spell.
fn tag_bytes(word: &[u8]) -> [u8; 16]
    requires digits { length word.now ≡ 32 }
    requires hex { list_all is_hex_digit word.now ≡ true }
    ensures { result ≡ map (key_byte word.now) (range_with_len 0 16) }
{
    let mut tag = [0; 16];
    for k in 0..16 {
        tag[k] = tag_byte(word, k);
    }
    tag
}

/// A tag of 32 digits.
#[tactic(auto, unfolding(crate::specs::EventLines::tag_word))]
pub fn read_tag(word: &[u8]) -> Result<[u8; 16], Reason>
    ensures { result ≡ tag_word word.now }
{
    if word.len() == 32 && all_hex(word) {
        Ok(tag_bytes(word))
    } else {
        Err(Reason::Form)
    }
}
