ghost use Rattle.std.specs.Prelude.{◌≡◌, ◌+◌, ◌<◌, ◌≤◌, ◌∷◌, ◌++◌, length, take, drop};
ghost use Rattle.snp_model.specs.Journal.{actors_of};
ghost use Rattle.snp_model.specs.Report.{order_lines, run_text, runs_of};

use run_journal::Journal;
use script_text::pen::{put, put_named};

// The actor of the run that begins at this place, and how many events the run has.
fn first_run(journal: &Journal, at: usize) -> (u32, usize)
    requires { at < length journal.now.list }
    ensures some { 0 < result.1 }
    ensures within { at + result.1 ≤ length journal.now.list }
    ensures run { let actors = actors_of journal.now.list in
        runs_of (drop at actors) ≡ (result.0, result.1) ∷ runs_of (drop (at + result.1) actors) }
{
    let count = journal.len();
    let actor = journal.actor(at);
    let mut end = at + 1;
    'run: while end < count {
        let next = journal.actor(end);
        if next != actor {
            return (actor, end - at);
        }
        end += 1;
    }
    (actor, end - at)
}

// Writes a run as a word of an order line.
#[tactic(auto, unfolding(snp_model::specs::Report::run_text))]
fn put_run(out: &mut [u8], at: usize, actor: u32, count: usize) -> usize
    requires { at + 42 ≤ length out.old }
    ensures end { result ≤ at + 42 }
    ensures text { take result out.new ≡ take at out.old ++ run_text (actor, count) }
{
    let end = put_named(out, at, b" ", u64::from(actor));
    put_named(out, end, b"*", count as u64)
}

// Writes an order line from this place of the journal on, and gives the place after its runs and the
// length of the line.
pub fn put_order(journal: &Journal, at: usize, out: &mut [u8; 1024]) -> (usize, usize)
    requires { at < length journal.now.list }
    ensures goes_on { at < result.0 }
    ensures within { result.0 ≤ length journal.now.list }
    ensures end { result.1 ≤ 1024 }
    ensures text { let actors = actors_of journal.now.list in
        order_lines (runs_of (drop at actors)) ≡ take result.1 out.new ++ order_lines (runs_of (drop result.0 actors)) }
{
    let mut end = put(out, 0, b"order");
    let mut next = at;
    let mut room: usize = 16;
    'runs: while room > 0 {
        if next == journal.len() {
            return (next, put(out, end, b"\n"));
        }
        let (actor, count) = first_run(journal, next);
        end = put_run(out, end, actor, count);
        next += count;
        room -= 1;
    }
    (next, put(out, end, b"\n"))
}
