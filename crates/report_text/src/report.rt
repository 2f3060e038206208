ghost use Rattle.std.specs.Prelude.{◌≡◌, ◌+◌, ◌^◌, ◌<◌, ◌≤◌, ◌++◌, length, slice_get, take, IfSome, OnErr};
ghost use Rattle.snp_model.specs.EventText.{event_text};
ghost use Rattle.snp_model.specs.Journal.{actors_of};
ghost use Rattle.snp_model.specs.Outside.{Rose, Writes};
ghost use Rattle.snp_model.specs.Report.{digest_text, end_text, event_lines, guest_lines, guest_text, head_text, line, order_lines, report_text, runs_of, state_text};
ghost use Rattle.outside_port.specs.Holding.{Held};

use crate::line::put_line;
use crate::order::put_order;
use outside_port::{Sink, SinkFault, write_all};
use run_journal::Journal;
use script_text::base16::put_bytes;
use script_text::pen::{put, put_named};
use snp_model::{GuestLine, GuestState};

/// Writes the report of a journal and its guests, many lines of events by one call and each other line by a call of its own.
/// `version` is 1 or 2, that of the scenario. Takes no memory.
pub fn write_report<K: Sink>(
    version: u8,
    journal: &Journal,
    guests: &Vec<GuestLine>,
    sink: &mut K,
) -> Result<(), SinkFault>
    requires version { (1 ≤ version) × (version ≤ 2) }
    requires short { length journal.now.list < 2 ^ 32 }
    ensures text { Writes (K.written sink.old) (K.written sink.new) result (report_text version journal.now.list guests.now.items) }
    ensures held { Held (K.holds sink.old) (K.holds sink.new) result (report_text version journal.now.list guests.now.items) }
    ensures later { K.faults sink.old ≤ K.faults sink.new }
    ensures cause { OnErr result (Rose (K.faults sink.old) (K.faults sink.new)) }
{
    write_head(version, sink)?;
    write_events(journal, sink)?;
    write_order(journal, sink)?;
    write_guests(guests, sink)?;
    write_end(journal.len(), sink)
}

// Writes the first line.
#[tactic(auto, unfolding(snp_model::specs::Report::head_text))]
fn write_head<K: Sink>(version: u8, sink: &mut K) -> Result<(), SinkFault>
    ensures text { Writes (K.written sink.old) (K.written sink.new) result (line (head_text version)) }
    ensures held { Held (K.holds sink.old) (K.holds sink.new) result (line (head_text version)) }
    ensures later { K.faults sink.old ≤ K.faults sink.new }
    ensures cause { OnErr result (Rose (K.faults sink.old) (K.faults sink.new)) }
{
    let mut buffer = [0; 32];
    let end = put_named(&mut buffer, 0, b"snp-report ", u64::from(version));
    let end = put(&mut buffer, end, b"\n");
    write_all(sink, &buffer[..end])
}

// Writes a line for each event: as many as a buffer holds, one behind the other, go to the sink by one call.
fn write_events<K: Sink>(journal: &Journal, sink: &mut K) -> Result<(), SinkFault>
    requires { length journal.now.list < 2 ^ 32 }
    ensures text { Writes (K.written sink.old) (K.written sink.new) result (event_lines 0 journal.now.list) }
    ensures held { Held (K.holds sink.old) (K.holds sink.new) result (event_lines 0 journal.now.list) }
    ensures later { K.faults sink.old ≤ K.faults sink.new }
    ensures cause { OnErr result (Rose (K.faults sink.old) (K.faults sink.new)) }
{
    let mut buffer = [0; 8192];
    let mut end = 0;
    for k in 0..journal.len() {
        end = put_event(&mut buffer, end, journal, k);
        if end > 8192 - 256 {
            write_all(sink, &buffer[..end])?;
            end = 0;
        }
    }
    write_all(sink, &buffer[..end])
}

// Writes the line of event k of a journal at a place of a buffer, straight from what the journal keeps.
fn put_event(out: &mut [u8], at: usize, journal: &Journal, k: usize) -> usize
    requires room { at + 256 ≤ length out.old }
    requires there { k < length journal.now.list }
    requires short { length journal.now.list < 2 ^ 32 }
    ensures end { result ≤ at + 256 }
    ensures text { IfSome (slice_get journal.now.list k) (λ entry. take result out.new ≡ take at out.old ++ line (event_text k entry.0 entry.1)) }
{
    let kept = journal.kept(k);
    let end = put_line(out, at, k as u32, kept.actor, &kept.event, &kept.outcome);
    put(out, end, b"\n")
}

// Writes the order lines.
fn write_order<K: Sink>(journal: &Journal, sink: &mut K) -> Result<(), SinkFault>
    ensures text { Writes (K.written sink.old) (K.written sink.new) result (order_lines (runs_of (actors_of journal.now.list))) }
    ensures held { Held (K.holds sink.old) (K.holds sink.new) result (order_lines (runs_of (actors_of journal.now.list))) }
    ensures later { K.faults sink.old ≤ K.faults sink.new }
    ensures cause { OnErr result (Rose (K.faults sink.old) (K.faults sink.new)) }
{
    let mut buffer = [0; 1024];
    let mut at = 0;
    'lines: while at < journal.len() {
        let (next, end) = put_order(journal, at, &mut buffer);
        write_all(sink, &buffer[..end])?;
        at = next;
    }
    Ok(())
}

// Writes a line for each guest.
fn write_guests<K: Sink>(guests: &Vec<GuestLine>, sink: &mut K) -> Result<(), SinkFault>
    ensures text { Writes (K.written sink.old) (K.written sink.new) result (guest_lines guests.now.items) }
    ensures held { Held (K.holds sink.old) (K.holds sink.new) result (guest_lines guests.now.items) }
    ensures later { K.faults sink.old ≤ K.faults sink.new }
    ensures cause { OnErr result (Rose (K.faults sink.old) (K.faults sink.new)) }
{
    let mut buffer = [0; 256];
    for guest in guests {
        write_guest(guest, &mut buffer, sink)?;
    }
    Ok(())
}

// Writes the line of a guest.
fn write_guest<K: Sink>(
    guest: &GuestLine,
    buffer: &mut [u8; 256],
    sink: &mut K,
) -> Result<(), SinkFault>
    ensures text { Writes (K.written sink.old) (K.written sink.new) result (line (guest_text guest.now)) }
    ensures held { Held (K.holds sink.old) (K.holds sink.new) result (line (guest_text guest.now)) }
    ensures later { K.faults sink.old ≤ K.faults sink.new }
    ensures cause { OnErr result (Rose (K.faults sink.old) (K.faults sink.new)) }
{
    let end = put_guest(guest, buffer);
    let end = put(buffer, end, b"\n");
    write_all(sink, &buffer[..end])
}

// Writes what is said of a guest into the front of a buffer.
#[tactic(auto, unfolding(snp_model::specs::Report::guest_text))]
fn put_guest(guest: &GuestLine, out: &mut [u8; 256]) -> usize
    ensures end { result ≤ 255 }
    ensures text { take result out.new ≡ guest_text guest.now }
{
    let end = put_named(out, 0, b"guest ", u64::from(guest.guest));
    let end = put(out, end, b" ");
    let end = put_state(out, end, guest.state);
    let end = put(out, end, b" ");
    put_digest(out, end, guest.pages, &guest.digest)
}

// Writes the state of a guest's context.
#[tactic(auto, unfolding(snp_model::specs::Report::state_text))]
fn put_state(out: &mut [u8], at: usize, state: GuestState) -> usize
    requires { at + 9 ≤ length out.old }
    ensures end { result ≤ at + 9 }
    ensures text { take result out.new ≡ take at out.old ++ state_text state }
{
    match state {
        GuestState::Absent => put(out, at, b"absent"),
        GuestState::Init => put(out, at, b"init"),
        GuestState::Launching => put(out, at, b"launching"),
        GuestState::Running => put(out, at, b"running"),
    }
}

// Writes a launch digest, or a dash while no page was launched.
#[tactic(auto, unfolding(snp_model::specs::Report::digest_text))]
fn put_digest(out: &mut [u8], at: usize, pages: u32, digest: &[u8; 48]) -> usize
    requires { at + 96 ≤ length out.old }
    ensures end { result ≤ at + 96 }
    ensures text { take result out.new ≡ take at out.old ++ digest_text pages digest.now }
{
    if pages == 0 {
        put(out, at, b"-")
    } else {
        put_bytes(out, at, digest)
    }
}

// Writes the last line.
#[tactic(auto, unfolding(snp_model::specs::Report::end_text))]
fn write_end<K: Sink>(count: usize, sink: &mut K) -> Result<(), SinkFault>
    ensures text { Writes (K.written sink.old) (K.written sink.new) result (line (end_text count)) }
    ensures held { Held (K.holds sink.old) (K.holds sink.new) result (line (end_text count)) }
    ensures later { K.faults sink.old ≤ K.faults sink.new }
    ensures cause { OnErr result (Rose (K.faults sink.old) (K.faults sink.new)) }
{
    let mut buffer = [0; 32];
    let end = put_named(&mut buffer, 0, b"end ", count as u64);
    let end = put(&mut buffer, end, b"\n");
    write_all(sink, &buffer[..end])
}
