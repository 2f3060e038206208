ghost use Rattle.std.specs.Prelude.{◌≡◌, ◌+◌, ◌≤◌, ◌++◌, length, take};
ghost use Rattle.run_journal.specs.Shorts.{whole_deed, whole_event};
ghost use Rattle.snp_model.specs.declared.event.Deed.TheVariants.{Access, Commit, Host, Nested, Table};
ghost use Rattle.snp_model.specs.EventText.{deed_text, ending_text, event_text, hex, outcome_text, read_text};

use run_journal::{Short, ShortDeed};
use script_text::base16::{put_bytes, put_hex};
use script_text::pen::{put, put_named, put_number};
use snp_model::{Event, Outcome, PageSize};

/// Writes the line of event k of an actor, without a line feed, into the front of a buffer, and
/// gives its length. The rest of the buffer may be anything.
pub fn write_line(k: u32, actor: u32, event: &Event, out: &mut [u8; 256]) -> usize
    ensures end { result ≤ 255 }
    ensures text { take result out.new ≡ event_text k actor event.now }
{
    put_line(out, 0, k, actor, &Short::from_event(event), &event.outcome)
}

// Writes the line of event k of an actor, which is in its short form, without a line feed, at a place of a buffer.
#[inline(always)]
#[tactic(auto, unfolding(snp_model::specs::EventText::event_text))]
pub(crate) fn put_line(
    out: &mut [u8],
    at: usize,
    k: u32,
    actor: u32,
    event: &Short,
    outcome: &Option<Outcome>,
) -> usize
    requires { at + 255 ≤ length out.old }
    ensures end { result ≤ at + 255 }
    ensures text { take result out.new ≡ take at out.old ++ event_text k actor (whole_event event.now outcome.now) }
{
    let end = put_number(out, at, u64::from(k));
    let end = put_named(out, end, b" ", u64::from(actor));
    let end = put_named(out, end, b" ", u64::from(event.item));
    let end = put_named(out, end, b".", u64::from(event.attempt));
    let end = put(out, end, b" ");
    let end = put_deed(out, end, &event.deed);
    put_ending(out, end, outcome)
}

// Writes a space and the outcome, where there is one.
#[inline(always)]
#[tactic(auto, unfolding(snp_model::specs::EventText::ending_text))]
fn put_ending(out: &mut [u8], at: usize, outcome: &Option<Outcome>) -> usize
    requires { at + 84 ≤ length out.old }
    ensures end { result ≤ at + 84 }
    ensures text { take result out.new ≡ take at out.old ++ ending_text outcome.now }
{
    match outcome {
        Some(outcome) => {
            let end = put(out, at, b" ");
            // A copy, so that of an event without an outcome nothing has to stand in memory.
            let outcome = *outcome;
            put_outcome(out, end, &outcome)
        }
        None => at,
    }
}

// Writes what an event does.
#[inline(always)]
#[tactic(auto, unfolding(snp_model::specs::EventText::deed_text))]
fn put_deed(out: &mut [u8], at: usize, deed: &ShortDeed) -> usize
    requires { at + 83 ≤ length out.old }
    ensures end { result ≤ at + 83 }
    ensures text { take result out.new ≡ take at out.old ++ deed_text (whole_deed deed.now) }
{
    match *deed {
        ShortDeed::Begin => put(out, at, b"begin"),
        ShortDeed::Nested {
            index,
            frame,
            value,
        } => put_nested(out, at, frame, index, value),
        ShortDeed::Table {
            index,
            frame,
            gpn,
            value,
        } => put_table(out, at, gpn, index, frame, Some(value)),
        ShortDeed::RefusedTable { index, frame, gpn } => {
            put_table(out, at, gpn, index, frame, None)
        }
        ShortDeed::Access {
            private,
            index,
            frame,
            gpn,
        } => put_access(out, at, gpn, index, frame, private),
        ShortDeed::Host { index, frame } => put_host(out, at, frame, index),
        ShortDeed::Lock { frame } => put_named(out, at, b"lock ", frame),
        ShortDeed::LockContext { guest } => put_named(out, at, b"lockg ", u64::from(guest)),
        ShortDeed::Compute => put(out, at, b"compute"),
        ShortDeed::Commit { size, frame, gpn } => put_commit(out, at, frame, gpn, size),
        ShortDeed::CommitContext { guest } => put_named(out, at, b"commitg ", u64::from(guest)),
        ShortDeed::Control => put(out, at, b"skip"),
    }
}

#[inline(always)]
#[tactic(auto, unfolding(snp_model::specs::EventText::deed_text))]
fn put_nested(out: &mut [u8], at: usize, frame: u32, index: u16, value: u64) -> usize
    requires { at + 83 ≤ length out.old }
    ensures end { result ≤ at + 83 }
    ensures text { take result out.new ≡ take at out.old ++ deed_text (Nested frame index value) }
{
    let end = put_named(out, at, b"npt ", u64::from(frame));
    let end = put_named(out, end, b":", u64::from(index));
    let end = put(out, end, b" ");
    put_hex(out, end, value)
}

#[inline(always)]
#[tactic(auto, unfolding(snp_model::specs::EventText::deed_text))]
fn put_table(
    out: &mut [u8],
    at: usize,
    gpn: u64,
    index: u16,
    frame: u32,
    value: Option<u64>,
) -> usize
    requires { at + 83 ≤ length out.old }
    ensures end { result ≤ at + 83 }
    ensures text { take result out.new ≡ take at out.old ++ deed_text (Table gpn index frame value) }
{
    let end = put(out, at, b"gpt ");
    let end = put_hex(out, end, gpn);
    let end = put_named(out, end, b":", u64::from(index));
    let end = put_named(out, end, b" ", u64::from(frame));
    let end = put(out, end, b" ");
    put_read(out, end, value)
}

// Writes a word that was read, or a dash.
#[inline(always)]
#[tactic(auto, unfolding(snp_model::specs::EventText::read_text))]
fn put_read(out: &mut [u8], at: usize, value: Option<u64>) -> usize
    requires { at + 18 ≤ length out.old }
    ensures end { result ≤ at + 18 }
    ensures text { take result out.new ≡ take at out.old ++ read_text value }
{
    match value {
        Some(value) => put_hex(out, at, value),
        None => put(out, at, b"-"),
    }
}

#[inline(always)]
#[tactic(auto, unfolding(snp_model::specs::EventText::deed_text, snp_model::specs::EventText::privacy_text))]
fn put_access(out: &mut [u8], at: usize, gpn: u64, index: u16, frame: u32, private: bool) -> usize
    requires { at + 83 ≤ length out.old }
    ensures end { result ≤ at + 83 }
    ensures text { take result out.new ≡ take at out.old ++ deed_text (Access gpn index frame private) }
{
    let end = put(out, at, b"data ");
    let end = put_hex(out, end, gpn);
    let end = put_named(out, end, b":", u64::from(index));
    let end = put_named(out, end, b" ", u64::from(frame));
    if private {
        put(out, end, b" p")
    } else {
        put(out, end, b" s")
    }
}

#[inline(always)]
#[tactic(auto, unfolding(snp_model::specs::EventText::deed_text))]
fn put_host(out: &mut [u8], at: usize, frame: u32, index: u16) -> usize
    requires { at + 83 ≤ length out.old }
    ensures end { result ≤ at + 83 }
    ensures text { take result out.new ≡ take at out.old ++ deed_text (Host frame index) }
{
    let end = put_named(out, at, b"host ", u64::from(frame));
    put_named(out, end, b":", u64::from(index))
}

#[inline(always)]
#[tactic(auto, unfolding(snp_model::specs::EventText::deed_text, snp_model::specs::EventText::size_text))]
fn put_commit(out: &mut [u8], at: usize, frame: u32, gpn: u64, size: PageSize) -> usize
    requires { at + 83 ≤ length out.old }
    ensures end { result ≤ at + 83 }
    ensures text { take result out.new ≡ take at out.old ++ deed_text (Commit frame gpn size) }
{
    let end = put_named(out, at, b"commit ", u64::from(frame));
    let end = put(out, end, b" ");
    let end = put_hex(out, end, gpn);
    match size {
        PageSize::Small => put(out, end, b" 4k"),
        PageSize::Large => put(out, end, b" 2m"),
    }
}

// Writes how an attempt ended. It isn't inlined: most events have no outcome, and its fields would be cleared for each of them.
#[inline(never)]
#[tactic(auto, unfolding(snp_model::specs::EventText::outcome_text))]
fn put_outcome(out: &mut [u8], at: usize, outcome: &Outcome) -> usize
    requires { at + 83 ≤ length out.old }
    ensures end { result ≤ at + 83 }
    ensures text { take result out.new ≡ take at out.old ++ outcome_text outcome.now }
{
    match *outcome {
        Outcome::Loaded(value) => put_code(out, at, b"load ", value),
        Outcome::Opaque => put(out, at, b"opaque"),
        Outcome::Stored => put(out, at, b"store"),
        Outcome::Swapped(value) => put_code(out, at, b"swap ", value),
        Outcome::Compared { found, written } => put_compared(out, at, found, written),
        Outcome::Gp => put(out, at, b"gp"),
        Outcome::Offline => put(out, at, b"offline"),
        Outcome::Pf(code) => put_code(out, at, b"pf ", code),
        Outcome::Npf(code) => put_code(out, at, b"npf ", code),
        Outcome::Vc(code) => put_code(out, at, b"vc ", code),
        Outcome::Status(status) => put_named(out, at, b"rc ", u64::from(status)),
        Outcome::Carry(true) => put(out, at, b"rc 0 cf 1"),
        Outcome::Carry(false) => put(out, at, b"rc 0 cf 0"),
        Outcome::StatusInUse { holder } => put_named(out, at, b"rc 3 by ", u64::from(holder)),
        Outcome::Firmware(status) => put_code(out, at, b"fw ", u64::from(status)),
        Outcome::FirmwareInUse { holder } => {
            put_named(out, at, b"fw 0x100 by ", u64::from(holder))
        }
        Outcome::BadTag { found, kept } => put_tags(out, at, &found, &kept),
        Outcome::Next => put(out, at, b"next"),
        Outcome::Skipped(count) => put_named(out, at, b"skipped ", u64::from(count)),
    }
}

// Writes a name and a number in base 16.
#[inline(always)]
fn put_code(out: &mut [u8], at: usize, name: &[u8], code: u64) -> usize
    requires { at + length name.now + 18 ≤ length out.old }
    ensures end { result ≤ at + length name.now + 18 }
    ensures text { take result out.new ≡ take at out.old ++ (name.now ++ hex code) }
{
    let end = put(out, at, name);
    put_hex(out, end, code)
}

#[tactic(auto, unfolding(snp_model::specs::EventText::outcome_text))]
fn put_compared(out: &mut [u8], at: usize, found: u64, written: bool) -> usize
    requires { at + 83 ≤ length out.old }
    ensures end { result ≤ at + 83 }
    ensures text { take result out.new ≡ take at out.old ++ outcome_text (Outcome.Compared found written) }
{
    let end = put_code(out, at, b"cas ", found);
    if written {
        put(out, end, b" yes")
    } else {
        put(out, end, b" no")
    }
}

// Writes the tag of a ciphertext and the one that was kept.
#[tactic(auto, unfolding(snp_model::specs::EventText::outcome_text))]
fn put_tags(out: &mut [u8], at: usize, found: &[u8; 16], kept: &[u8; 16]) -> usize
    requires { at + 83 ≤ length out.old }
    ensures end { result ≤ at + 83 }
    ensures text { take result out.new ≡ take at out.old ++ outcome_text (Outcome.BadTag found.now kept.now) }
{
    let end = put(out, at, b"fw 0xb found ");
    let end = put_bytes(out, end, found);
    let end = put(out, end, b" kept ");
    put_bytes(out, end, kept)
}
