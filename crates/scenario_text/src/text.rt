ghost use Rattle.std.specs.Prelude.{◌≡◌, ℕ, ◌+◌, ◌≤◌, ◌<◌, ◌^◌, List, length};
ghost use Rattle.snp_model.specs.Lines.{parts_at};
ghost use Rattle.snp_model.specs.Reading.{most_bytes, nothing};
ghost use Rattle.snp_model.specs.Texts.{end_of, read_parts, read_text};
ghost use Rattle.scenario_text.specs.Steps.{made_of, Says, SaysFault};
ghost use Rattle.scenario_text.specs.Answers.{Answers};

use crate::draft::Made;
use crate::fault::{LineFault, ScenarioFault};
use crate::reading::fit;
use script_text::words::{Words, cut};
use snp_model::{Quantity, Reason, Scenario};
use std::alloc::{AllocError, Global};

// A fault of a line, at its number.
fn at_line(line: u32, fault: LineFault) -> ScenarioFault
    ensures { SaysFault line fault result }
{
    match fault {
        LineFault::Refused(reason) => ScenarioFault::Refused { line, reason },
        LineFault::Limit { quantity, count } => ScenarioFault::Limit { quantity, count },
        LineFault::Memory => ScenarioFault::Memory(AllocError),
    }
}

// The end of a text, whose line of this number would be what no line feed ends.
#[tactic(auto, unfolding(snp_model::specs::Texts::end_of))]
fn end(line: u32, made: Made, rest: &[u8]) -> Result<Scenario, ScenarioFault>
    ensures { Says result (end_of line (made_of made) rest.now) }
{
    if !rest.is_empty() {
        return Err(ScenarioFault::Refused {
            line,
            reason: Reason::Cut,
        });
    }
    match made {
        Made::Closed(scenario) => Ok(scenario),
        Made::Nothing => Err(ScenarioFault::Refused {
            line,
            reason: Reason::End,
        }),
        Made::Reading(_) => Err(ScenarioFault::Refused {
            line,
            reason: Reason::End,
        }),
    }
}

// Reads a text that isn't too long, line by line.
fn read_lines(alloc: Global, text: &[u8]) -> Result<Scenario, ScenarioFault>
    requires { length text.now ≤ most_bytes }
    ensures { Says result (read_text text.now) }
{
    let mut made = Made::Nothing;
    let mut words = Words::new();
    let mut line: u32 = 1;
    let mut rest = text;
    'lines: while let Some((bytes, more)) = cut(rest, b'\n') {
        match fit(alloc, &mut made, &mut words, bytes) {
            Ok(()) => {}
            Err(fault) => return Err(at_line(line, fault)),
        }
        line += 1;
        rest = more;
    }
    end(line, made, rest)
}

/// Reads a scenario text, in a time linear in it.
pub fn read_scenario(alloc: Global, text: &[u8]) -> Result<Scenario, ScenarioFault>
    ensures { Answers result text.now }
{
    if text.len() as u64 > Quantity::Bytes.most() {
        return Err(ScenarioFault::Limit {
            quantity: Quantity::Bytes,
            count: Quantity::Bytes.most() + 1,
        });
    }
    read_lines(alloc, text)
}
