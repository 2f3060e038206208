//! Replays a scenario, and gives what each guest's processors do in it to a memory of the guest's own: `guest_verdicts < SCENARIO`.
//! Prints a line for each guest, with the number of its processors' events: `guest 1 legal 12`; or, with the number of an event in the
//! report, `guest 1 undisciplined 7` where that event validates or launches a page that the guest holds, and `guest 1 illegal 7`
//! where it isn't legal in that memory. The exit status is 1 where the text has no report.
#![tactic(auto)]

mod judging;
#[cfg(test)]
mod tests;

use crate::judging::{Verdict, Watched, judge};
use anyhow::bail;
use outside_port::ReaderSource;
use snp_top::replay::{read, run};
use std::io::{self, BufWriter, Write};

fn main(rt: HostRuntime) -> anyhow::Result<()> {
    let alloc = rt.alloc();
    let Ok(scenario) = read(alloc, &mut ReaderSource::new(rt.stdin())) else {
        bail!("the text says no scenario");
    };
    let Ok(played) = run(alloc, &scenario) else {
        bail!("the schedule makes no run");
    };
    let mut out = BufWriter::new(alloc, io::writer(&rt))?;
    for watched in judge(alloc, &scenario, &played)?.iter() {
        write_verdict(&mut out, watched)?;
    }
    out.flush()?;
    Ok(())
}

// Writes the line of a guest.
fn write_verdict<W: Write>(out: &mut W, watched: &Watched) -> io::Result<()> {
    let guest = watched.guest;
    match watched.verdict {
        Verdict::Legal => writeln!(out, "guest {guest} legal {}", watched.events),
        Verdict::Undisciplined { event } => writeln!(out, "guest {guest} undisciplined {event}"),
        Verdict::NotLegal { event } => writeln!(out, "guest {guest} illegal {event}"),
    }
}
