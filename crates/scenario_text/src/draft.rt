ghost use Rattle.std.specs.Prelude.{◌≡◌, ◌≤◌, length};
ghost use Rattle.scenario_text.specs.Pages.{Knows};
ghost use Rattle.snp_model.specs.Reading.{turns_count};
ghost use Rattle.snp_model.specs.Attempts.{actors_attempts};

use crate::taken::Taken;
use snp_model::{Listed, Scenario};
use std::alloc::Global;

/// A scenario whose text is being read, with what its limits and repeats need.
#[derive(Drop)]
pub struct Draft {
    /// What the lines so far make.
    pub scenario: Scenario,
    /// The attempts of all items.
    pub attempts: u32,
    /// The entries of the schedule.
    pub turns: u32,
    /// The frames and guest page numbers of the pages.
    pub taken: Taken,
    ghost pages_known: { Knows taken scenario.pages },
    ghost regions_most: { scenario.regions ≤ 16 },
    ghost guests_most: { length scenario.guests ≤ 8 },
    ghost actors_most: { length scenario.actors ≤ 32 },
    ghost attempts_counted: { attempts ≡ actors_attempts scenario.actors },
    ghost attempts_most: { attempts ≤ 8192 },
    ghost turns_counted: { turns ≡ turns_count scenario.order },
    ghost turns_most: { turns ≤ 262144 },
}

/// What is made so far.
#[derive(Drop)]
pub enum Made {
    /// Nothing before the line that says the version.
    Nothing,
    /// A scenario.
    Reading(Draft),
    /// The scenario of a text that ended.
    Closed(Scenario),
}

/// Whether a text goes on after a line.
#[derive(Clone, Copy, Debug, PartialEq, Eq)]
pub enum Next {
    /// It goes on.
    Goes,
    /// It ends with the line.
    Ends,
}
