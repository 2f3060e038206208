//! The error lines of the program.
ghost use Rattle.std.specs.Prelude.{◌≡◌, ◌≤◌, length, take};
ghost use Rattle.snp_top.specs.Faults.{error_line, limit_line, quantity_text, reason_text, refusal_line, schedule_line};

use crate::fault::CommandFault;
use crate::schedule::BadTurn;
use script_text::pen::{put, put_named, put_number};
use snp_model::{Quantity, Reason};

// The name of a reason.
#[tactic(auto, unfolding(crate::specs::Faults::reason_text))]
fn reason_name(reason: Reason) -> &'static [u8]
    ensures name { result.now ≡ reason_text reason }
    ensures short { length result.now ≤ 6 }
{
    match reason {
        Reason::Cut => b"cut",
        Reason::Form => b"form",
        Reason::Number => b"number",
        Reason::Range => b"range",
        Reason::Align => b"align",
        Reason::Guest => b"guest",
        Reason::Repeat => b"repeat",
        Reason::End => b"end",
        Reason::After => b"after",
    }
}

// The name of a quantity.
#[tactic(auto, unfolding(crate::specs::Faults::quantity_text))]
fn quantity_name(quantity: Quantity) -> &'static [u8]
    ensures name { result.now ≡ quantity_text quantity }
    ensures short { length result.now ≤ 8 }
{
    match quantity {
        Quantity::Bytes => b"bytes",
        Quantity::Regions => b"regions",
        Quantity::Guests => b"guests",
        Quantity::Actors => b"actors",
        Quantity::Attempts => b"attempts",
        Quantity::Order => b"order",
    }
}

// `error scenario LINE REASON`
#[tactic(auto, unfolding(crate::specs::Faults::refusal_line))]
fn put_refusal(out: &mut [u8; 64], line: u32, reason: Reason) -> usize
    ensures end { result ≤ 64 }
    ensures line { take result out.new ≡ refusal_line line reason }
{
    let at = put_named(out, 0, b"error scenario ", u64::from(line));
    let at = put(out, at, b" ");
    let at = put(out, at, reason_name(reason));
    put(out, at, b"\n")
}

// `error limit QUANTITY COUNT MOST`
#[tactic(auto, unfolding(crate::specs::Faults::limit_line))]
fn put_limit(out: &mut [u8; 64], quantity: Quantity, count: u64) -> usize
    ensures end { result ≤ 64 }
    ensures line { take result out.new ≡ limit_line quantity count }
{
    let at = put(out, 0, b"error limit ");
    let at = put(out, at, quantity_name(quantity));
    let at = put(out, at, b" ");
    let at = put_number(out, at, count);
    let at = put(out, at, b" ");
    let at = put_number(out, at, quantity.most());
    put(out, at, b"\n")
}

// `error schedule K ACTOR`
#[tactic(auto, unfolding(crate::specs::Faults::schedule_line))]
fn put_bad_turn(out: &mut [u8; 64], turn: BadTurn) -> usize
    ensures end { result ≤ 64 }
    ensures line { take result out.new ≡ schedule_line turn.entry turn.actor }
{
    let at = put_named(out, 0, b"error schedule ", u64::from(turn.entry));
    let at = put_named(out, at, b" ", u64::from(turn.actor));
    put(out, at, b"\n")
}

/// Writes the error line of a fault, and gives its length, which is 0 where there is none.
#[tactic(auto, unfolding(crate::specs::Faults::error_line))]
pub fn put_error(out: &mut [u8; 64], fault: CommandFault) -> usize
    ensures end { result ≤ 64 }
    ensures line { take result out.new ≡ error_line fault }
{
    match fault {
        CommandFault::Words => put(out, 0, b"error words\n"),
        CommandFault::Scenario { line, reason } => put_refusal(out, line, reason),
        CommandFault::Limit { quantity, count } => put_limit(out, quantity, count),
        CommandFault::Read => put(out, 0, b"error read\n"),
        CommandFault::Write => 0,
        CommandFault::Memory => put(out, 0, b"error memory\n"),
        CommandFault::Schedule(turn) => put_bad_turn(out, turn),
    }
}
