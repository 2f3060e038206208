//! What the words after the program's name ask for.
ghost use Rattle.std.specs.Prelude.{◌≡◌, ◌<◌, bytes_eq, length, map, string_bytes};
ghost use Rattle.snp_model.specs.Lines.{decimal_of};
ghost use Rattle.snp_top.specs.Words.{asks_run, command_of, fits, numbered};

use script_text::number::read_decimal;

/// What the words ask for: a command.
#[derive(Clone, Copy, Debug, PartialEq, Eq)]
pub enum Asked {
    /// To run the schedule of a scenario, and report the run.
    Replay,
    /// To have threads run a scenario, and report the run that comes of it.
    Run,
    /// To tell the launch digest of pages.
    Measure,
    /// To write what a number determines; no text is read.
    Drawn { number: u64, what: Drawn },
}

/// What a number determines.
#[derive(Clone, Copy, Debug, PartialEq, Eq)]
pub enum Drawn {
    /// Its scenario.
    Gen,
    /// Its drill, and the lines that tell what that came to.
    Drill,
}

/// The command that the words ask for, if they are those of one.
#[tactic(auto, unfolding(crate::specs::Words::forms, crate::specs::Words::first_of))]
pub fn read_words(words: &Vec<String>) -> Option<Asked>
    ensures { result ≡ command_of (map string_bytes words.now.items) }
{
    if fits(words, b"replay", 1) {
        return Some(Asked::Replay);
    }
    if fits(words, b"run", 1) {
        return Some(Asked::Run);
    }
    if fits(words, b"measure", 1) {
        return Some(Asked::Measure);
    }
    if fits(words, b"gen", 2) {
        return numbered(words, Drawn::Gen);
    }
    if fits(words, b"drill", 2) {
        return numbered(words, Drawn::Drill);
    }
    None
}

/// Whether this is `run`, which needs threads.
pub fn is_run(asked: Option<Asked>) -> bool
    ensures { result ≡ asks_run asked }
{
    matches!(asked, Some(Asked::Run))
}

// Whether the first word is this name, and there are this many words.
fn fits(words: &Vec<String>, name: &[u8], count: usize) -> bool
    requires { 0 < count }
    ensures { result ≡ fits name.now count (map string_bytes words.now.items) }
{
    words.len() == count && is_word(words[0].as_bytes(), name)
}

// What the number that the second word spells determines, if it spells one.
fn numbered(words: &Vec<String>, what: Drawn) -> Option<Asked>
    requires { length words.now.items ≡ 2 }
    ensures { result ≡ numbered what (map string_bytes words.now.items) }
{
    match decimal_of(words[1].as_bytes()) {
        Some(number) => Some(Asked::Drawn { number, what }),
        None => None,
    }
}

// The number that a word spells in base 10, if it spells one.
#[tactic(auto, unfolding(snp_model::specs::Lines::decimal))]
fn decimal_of(word: &[u8]) -> Option<u64>
    ensures { result ≡ decimal_of word.now }
{
    match read_decimal(word) {
        Ok(number) => Some(number),
        Err(_) => None,
    }
}

fn is_word(word: &[u8], name: &[u8]) -> bool
    ensures { result ≡ bytes_eq word.now name.now }
{
    word == name
}
