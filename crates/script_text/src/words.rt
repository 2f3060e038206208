ghost use Rattle.std.specs.Prelude.{
  ◌≡◌,
  ◌⊎◌,
  ℕ,
  true,
  false,
  ◌+◌,
  ◌<◌,
  ◌≤◌,
  List,
  [],
  ◌∷◌,
  length,
  take,
  drop,
  map,
  position,
  slice_index_or,
  ◌==◌,
  MatchOption,
  IfSome,
  Some,
  None,
};
ghost use Rattle.std.specs.Bool.{OnTrue};
ghost use Rattle.std.specs.List.{list_all, position_or_len};
ghost use Rattle.snp_model.specs.Lines.{parts_at, cut_at, words_of, word, most_words, is_row, is_printable, is_plain};
ghost use Rattle.snp_model.specs.ItemLines.{is_retry_row};
ghost use Rattle.snp_model.specs.Reading.{is_passed_over};
ghost use Rattle.script_text.specs.Pieces.{ends_word};

use crate::number::is_word;
use std::marker::Model;

// Where the first separator stands.
#[inline(never)]
fn place(bytes: &[u8], separator: u8) -> Option<usize>
    ensures place { result ≡ position (λ b. b == separator) bytes.now }
    ensures within { IfSome result (λ at. at < length bytes.now) }
{
    bytes.iter().position(|byte| *byte == separator)
}

// The bytes behind this place.
#[inline(always)]
fn behind(bytes: &[u8], at: usize) -> &[u8]
    requires { at < length bytes.now }
    ensures { result.now ≡ drop (at + 1) bytes.now }
{
    &bytes[at + 1..]
}

/// The bytes before the first separator, and those behind it.
#[inline(always)]
pub fn cut(bytes: &[u8], separator: u8) -> Option<(&[u8], &[u8])>
    ensures parts { MatchOption result (parts_at separator bytes.now ≡ bytes.now ∷ [])
        (λ p. parts_at separator bytes.now ≡ p.0.now ∷ parts_at separator p.1.now) }
    ensures pieces { MatchOption result (cut_at separator bytes.now ≡ None)
        (λ p. cut_at separator bytes.now ≡ Some (p.0.now, p.1.now)) }
    ensures shorter { IfSome result (λ p. length p.0.now + length p.1.now < length bytes.now) }
{
    match place(bytes, separator) {
        Some(at) => Some((&bytes[..at], behind(bytes, at))),
        None => None,
    }
}

// Whether a byte is no part of a word: a space, or one that may not stand in a line.
#[inline(always)]
fn ends_word(byte: u8) -> bool
    ensures { result ≡ ends_word byte }
{
    !(0x21..=0x7e).contains(&byte)
}

// How many bytes the first word has.
#[inline(always)]
fn word_length(line: &[u8]) -> usize
    ensures length { result ≡ position_or_len ends_word line.now }
    ensures within { result ≤ length line.now }
{
    for (at, byte) in line.iter().enumerate() {
        if ends_word(*byte) {
            return at;
        }
    }
    line.len()
}

/// Whether a line is empty or a comment.
pub fn is_passed_over(line: &[u8]) -> bool
    ensures { result ≡ is_passed_over line.now }
{
    line.is_empty() || line[0] == b'#'
}

/// The words of a line, which are 1 to 17.
#[derive(Drop)]
pub struct Words<'a> {
    words: [&'a [u8]; 17],
    count: usize,
}

impl<'a> Model for Words<'a> {
    ghost use Rattle.std.specs.Prelude.{List, ℕ, ◌<◌, ◌≤◌, take};
    ghost use Rattle.script_text.specs.Pieces.{texts};

    ghost Value = { List (List ℕ) };

    ghost view = { λ w. texts (take w.count w.words) };

    ghost invariant = { λ w. (0 < w.count) × (w.count ≤ 17) };
}

impl<'a> Words<'a> {
    /// A place for the words of lines. It holds one word, which is empty, before the first line.
    pub fn new() -> Words<'a>
        ensures { result ≡ [] ∷ [] }
    {
        Words {
            words: [b""; 17],
            count: 1,
        }
    }

    /// Takes the words of a line in place of those that are here, if the bytes of the line may stand in one and its
    /// words are at most 17, and answers whether they are. If not, the words are left as any.
    #[inline(always)]
    pub fn split(&mut self, line: &'a [u8]) -> bool
        ensures plain { result ≡ is_plain line.now }
        ensures words { OnTrue result (self.new ≡ words_of line.now) }
    {
        let mut count = 0;
        let mut rest = line;
        'words: loop {
            let end = word_length(rest);
            self.words[count] = &rest[..end];
            count += 1;
            if end == rest.len() {
                self.count = count;
                return true;
            }
            if rest[end] != b' ' || count == 17 {
                return false;
            }
            rest = behind(rest, end);
        }
    }

    /// How many words there are.
    #[inline(always)]
    pub fn count(&self) -> usize
        ensures count { result ≡ length self.now }
        ensures bounds { (0 < result) × (result ≤ 17) }
    {
        self.count
    }

    /// The word at a place, counted from 0.
    #[inline(always)]
    pub fn at(&self, k: usize) -> &'a [u8]
        requires { k < length self.now }
        ensures { result.now ≡ word self.now k }
    {
        let words = &self.words;
        words[k]
    }

    /// Whether the line has this first word and this many words.
    #[inline(always)]
    pub fn is_row(&self, name: &[u8], count: usize) -> bool
        ensures { result ≡ is_row self.now name.now count }
    {
        self.count() == count && is_word(self.at(0), name)
    }

    /// Whether the line has this first word, and this many words or two more for `retry N`.
    #[inline(always)]
    pub fn is_retry_row(&self, name: &[u8], count: usize) -> bool
        requires { count ≤ 15 }
        ensures row { result ≡ is_retry_row self.now name.now count }
        ensures count { OnTrue result ((length self.now ≡ count) ⊎ (length self.now ≡ count + 2)) }
    {
        self.is_row(name, count) || self.is_row(name, count + 2)
    }
}
