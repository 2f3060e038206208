//! Why a command comes to nothing.
ghost use Rattle.std.specs.Prelude.{◌≡◌};
ghost use Rattle.snp_top.specs.Faults.{status_of};

use crate::schedule::BadTurn;
use scenario_text::ScenarioFault;
use snp_model::{Quantity, Reason};
use std::alloc::AllocError;

/// Why a command comes to nothing.
#[derive(Clone, Copy, Debug, PartialEq, Eq)]
pub enum CommandFault {
    /// The words are no command.
    Words,
    /// A line of the text is refused. Lines count from 1.
    Scenario { line: u32, reason: Reason },
    /// The text passes a limit, with the quantity that it would make.
    Limit { quantity: Quantity, count: u64 },
    /// The source failed.
    Read,
    /// The sink failed under the report.
    Write,
    /// Want of memory.
    Memory,
    /// The schedule names an actor that is missing or finished.
    Schedule(BadTurn),
}

impl CommandFault {
    /// The exit status.
    pub fn status(self) -> u8
        ensures { result ≡ status_of self }
    {
        match self {
            CommandFault::Words => 2,
            CommandFault::Scenario { .. } => 3,
            CommandFault::Limit { .. } => 4,
            CommandFault::Read => 5,
            CommandFault::Write => 6,
            CommandFault::Memory => 7,
            CommandFault::Schedule(_) => 8,
        }
    }
}

impl From<AllocError> for CommandFault {
    ghost use Rattle.std.specs.Prelude.{◌≡◌};
    ghost use Rattle.snp_top.specs.declared.fault.CommandFault.TheVariants.{Memory};

    ghost from_gives = { λ _ fault. fault ≡ Memory };

    fn from(_error: AllocError) -> CommandFault {
        CommandFault::Memory
    }
}

impl From<ScenarioFault> for CommandFault {
    ghost use Rattle.std.specs.Prelude.{◌≡◌};
    ghost use Rattle.snp_top.specs.Faults.{text_fault};

    ghost from_gives = { λ fault made. made ≡ text_fault fault };

    fn from(fault: ScenarioFault) -> CommandFault {
        match fault {
            ScenarioFault::Refused { line, reason } => CommandFault::Scenario { line, reason },
            ScenarioFault::Limit { quantity, count } => CommandFault::Limit { quantity, count },
            ScenarioFault::Memory(_) => CommandFault::Memory,
        }
    }
}

impl From<BadTurn> for CommandFault {
    ghost use Rattle.std.specs.Prelude.{◌≡◌};
    ghost use Rattle.snp_top.specs.declared.fault.CommandFault.TheVariants.{Schedule};

    ghost from_gives = { λ turn fault. fault ≡ Schedule turn };

    fn from(turn: BadTurn) -> CommandFault {
        CommandFault::Schedule(turn)
    }
}
