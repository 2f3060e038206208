ghost use Rattle.std.specs.Prelude.{◌≡◌, ◌≤◌, ℕ, bytes_eq, length, IfSome, Some};
ghost use Rattle.snp_model.specs.declared.event.Event.{Event};
ghost use Rattle.snp_model.specs.EventText.{event_text};
ghost use Rattle.snp_model.specs.Lines.{is_plain, words_of};
ghost use Rattle.report_text.specs.EventLines.{event_of, line_event, read_of};
ghost use Rattle.report_text.specs.EventNumbers.{IsLineOf};

use crate::deeds::read_deed;
use crate::line::write_line;
use crate::outcomes::read_ending;
use crate::pieces::{read_attempt, read_u32};
use script_text::words::Words;
use snp_model::{Event, Reason};

// The words of a line, which are at least four.
#[tactic(auto, unfolding(crate::specs::EventLines::event_of))]
fn read_event(words: &Words<'_>) -> Result<(u32, u32, Event), Reason>
    requires { 4 ≤ length words.now }
    ensures { result ≡ event_of words.now }
{
    let k = read_u32(words.at(0))?;
    let actor = read_u32(words.at(1))?;
    let (item, attempt) = read_attempt(words.at(2))?;
    let (deed, count) = read_deed(words, 3)?;
    let outcome = read_ending(words, 3 + count)?;
    let event = Event {
        item,
        attempt,
        deed,
        outcome,
    };
    Ok((k, actor, event))
}

// A line, whose words are read from left to right.
#[tactic(auto, unfolding(crate::specs::EventLines::line_event))]
fn read_words(line: &[u8]) -> Result<(u32, u32, Event), Reason>
    ensures { result ≡ line_event line.now }
{
    let mut words = Words::new();
    if words.split(line) && words.count() >= 4 {
        read_event(&words)
    } else {
        Err(Reason::Form)
    }
}

// Whether this is the line of event k of an actor.
fn is_line_of(line: &[u8], k: u32, actor: u32, event: &Event) -> bool
    ensures { result ≡ bytes_eq line.now (event_text k actor event.now) }
{
    let mut out = [0; 256];
    let end = write_line(k, actor, event, &mut out);
    line == &out[..end]
}

// What a line says, where it is the line that is written of it.
#[tactic(auto, unfolding(crate::specs::EventLines::read_of))]
fn read_checked(line: &[u8]) -> Option<(u32, u32, Event)>
    ensures { result ≡ read_of line.now }
{
    match read_words(line) {
        Ok((k, actor, event)) => {
            if is_line_of(line, k, actor, &event) {
                Some((k, actor, event))
            } else {
                None
            }
        }
        Err(_) => None,
    }
}

/// The number, the actor and the event of a line without its line feed, exactly where `write_line` gives the line for
/// them, whether or not a run makes that event. Takes no memory.
pub fn read_line(line: &[u8]) -> Option<(u32, u32, Event)>
    ensures read { result ≡ read_of line.now }
    ensures written { (k actor : ℕ) (event : Event) → IsLineOf line.now k actor event → result ≡ Some (k, actor, event) }
    ensures every { IfSome result (λ read. line.now ≡ event_text read.0 read.1 read.2) }
{
    read_checked(line)
}
