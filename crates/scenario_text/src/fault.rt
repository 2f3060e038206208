use snp_model::{Quantity, Reason};
use std::alloc::AllocError;
use thiserror::Error;

/// Why a scenario text isn't read: the first thing that is wrong with it, or want of memory.
#[derive(Debug, Drop, PartialEq, Eq, Error)]
pub enum ScenarioFault {
    /// A line doesn't fit. Lines count from 1.
    #[error("line {line} is refused: {reason:?}")]
    Refused { line: u32, reason: Reason },
    /// A limit is passed, with the quantity that the text would make.
    #[error("the limit on {quantity:?} is passed: {count}")]
    Limit { quantity: Quantity, count: u64 },
    /// Memory ran out.
    #[error("out of memory")]
    Memory(AllocError),
}

/// Why a line isn't taken.
#[derive(Debug, Drop)]
pub enum LineFault {
    Refused(Reason),
    Limit { quantity: Quantity, count: u64 },
    Memory,
}

impl From<Reason> for LineFault {
    ghost use Rattle.std.specs.Prelude.{◌≡◌};
    ghost use Rattle.scenario_text.specs.declared.fault.LineFault.TheVariants.{Refused};

    ghost from_gives = { λ reason fault. fault ≡ Refused reason };

    fn from(reason: Reason) -> LineFault {
        LineFault::Refused(reason)
    }
}

impl From<AllocError> for LineFault {
    ghost use Rattle.std.specs.Prelude.{◌≡◌};
    ghost use Rattle.scenario_text.specs.declared.fault.LineFault.TheVariants.{Memory};

    ghost from_gives = { λ error fault. fault ≡ Memory };

    fn from(_error: AllocError) -> LineFault {
        LineFault::Memory
    }
}
