ghost use Rattle.std.specs.Prelude.{◌≡◌};
ghost use Rattle.snp_model.specs.Limits.{most};

/// Why a line of a text was refused: the first reason that applies. The texts are this project's own.
#[derive(Clone, Copy, Debug, PartialEq, Eq)]
pub enum Reason {
    /// The last line has no line feed.
    Cut,
    /// A byte outside 0x20 to 0x7e, or a line of no form that may stand here.
    Form,
    /// A number was expected.
    Number,
    /// A number is outside its range.
    Range,
    /// A number isn't a multiple of what it has to be.
    Align,
    /// The guest isn't declared, or isn't opened where it has to be.
    Guest,
    /// A frame, a guest's page number or an ASID stands twice.
    Repeat,
    /// The text ends before its line `end`.
    End,
    /// A line follows the line `end`.
    After,
}

/// What a limit counts.
#[derive(Clone, Copy, Debug, PartialEq, Eq)]
pub enum Quantity {
    /// Bytes of a text.
    Bytes,
    /// Regions of memory.
    Regions,
    /// Guests.
    Guests,
    /// Actors.
    Actors,
    /// Items and their retries.
    Attempts,
    /// Entries of a schedule.
    Order,
}

impl Quantity {
    /// The most that a text may make of it.
    pub fn most(self) -> u64
        ensures { result ≡ most self }
    {
        match self {
            Quantity::Bytes => 4_194_304,
            Quantity::Regions => 16,
            Quantity::Guests => 8,
            Quantity::Actors => 32,
            Quantity::Attempts => 8192,
            Quantity::Order => 262_144,
        }
    }
}
