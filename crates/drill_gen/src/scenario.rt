ghost use Rattle.std.specs.Prelude.{◌≡◌, IfOk, OnErr};
ghost use Rattle.snp_model.specs.Generated.{actors_for, drawn_scenario, scenario_with, script_for};

use crate::drill::Drill;
use crate::opening::{guests, pages, roles, words};
use snp_model::{Actor, Line, Listed, Role, Scenario};
use std::alloc::{AllocError, Global};

// How many items a script has.
const ITEMS_EACH: u32 = 512;

// A scenario with these actors.
#[tactic(auto, unfolding(snp_model::specs::Generated::scenario_with))]
fn scenario_with(alloc: Global, actors: Listed<Actor>) -> Result<Scenario, AllocError>
    ensures { IfOk result (λ scenario. scenario ≡ scenario_with actors) }
{
    Ok(Scenario {
        version: 1,
        regions: 2,
        guests: guests(alloc)?,
        pages: pages(alloc)?,
        words: words(alloc)?,
        actors,
        order: Listed::new(alloc),
    })
}

impl Drill {
    // A script of so many items.
    fn script_for(
        &mut self,
        alloc: Global,
        role: Role,
        count: u32,
    ) -> Result<Listed<Line>, AllocError>
        ensures { IfOk result (λ script. (script, self.new) ≡ script_for role count self.old) }
    {
        let mut script = Listed::new(alloc);
        'items: for _ in 0..count {
            let item = self.item_for(role);
            script.push(Line { item, retries: 0 })?;
        }
        Ok(script)
    }

    // Actors with these roles and scripts of so many items.
    fn actors_for(
        &mut self,
        alloc: Global,
        roles: &[Role],
        count: u32,
    ) -> Result<Listed<Actor>, AllocError>
        ensures { IfOk result (λ actors. (actors, self.new) ≡ actors_for roles.now count self.old) }
    {
        let mut actors = Listed::new(alloc);
        'roles: for role in roles {
            let script = self.script_for(alloc, *role, count)?;
            actors.push(Actor {
                role: *role,
                script,
            })?;
        }
        Ok(actors)
    }

    // The scenario that is drawn.
    #[tactic(auto, unfolding(snp_model::specs::Generated::drawn_scenario))]
    fn drawn_scenario(&mut self, alloc: Global) -> Result<Scenario, AllocError>
        ensures { IfOk result (λ scenario. (scenario, self.new) ≡ drawn_scenario self.old) }
    {
        let actors = self.actors_for(alloc, &roles(), ITEMS_EACH)?;
        scenario_with(alloc, actors)
    }

    /// The scenario that the next draws make: of a drill that a number has just made, the one of that number. Where memory is wanted,
    /// nothing is drawn.
    pub fn scenario(&mut self, alloc: Global) -> Result<Scenario, AllocError>
        ensures drawn { IfOk result (λ scenario. (scenario, self.new) ≡ drawn_scenario self.old) }
        ensures undrawn { OnErr result (self.new ≡ self.old) }
    {
        let mut drill = self.copy()?;
        let scenario = drill.drawn_scenario(alloc)?;
        *self = drill;
        Ok(scenario)
    }
}
