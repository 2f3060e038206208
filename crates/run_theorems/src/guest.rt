ghost use Rattle.std.specs.Prelude.{◌≡◌, ◌≢◌, ℕ, Bool, true, List};
ghost use Rattle.snp_model.specs.declared.command.Command.TheVariants as commands;
ghost use Rattle.snp_model.specs.declared.entry.PageSize.{PageSize};
ghost use Rattle.snp_model.specs.declared.event.Deed.TheVariants as deeds;
ghost use Rattle.snp_model.specs.declared.firmware.GuestState.TheVariants.{Running};
ghost use Rattle.snp_model.specs.declared.item.Item.TheVariants as items;
ghost use Rattle.snp_model.specs.declared.scenario.Paging.{Paging};
ghost use Rattle.snp_model.specs.declared.scenario.Role.TheVariants as roles;
ghost use Rattle.snp_model.specs.declared.scenario.Scenario.{Scenario};
ghost use Rattle.snp_model.specs.Opening.{opening};
ghost use Rattle.snp_model.specs.Run.{IsDefined, state_after};
ghost use Rattle.snp_model.specs.ScenarioLines.{is_opened};
ghost use Rattle.snp_model.specs.Sound.{IsSound};
ghost use Rattle.snp_model.specs.State.{part_of};
ghost use Rattle.snp_model.specs.Step.{event_of, line_at};
ghost use Rattle.run_theorems.specs.Ranges.{IsRanged};

/// The numbers in the events of a guest's processors are in range in every run: guest page numbers below 2^36, indexes of words below
/// 512, and a page of 2 MB that is committed begins at a multiple of 512.
#[tactic(auto, using(crate::proofs::RangeLaws::run_ranged))]
pub fn ranged_events()
    ensures { (c : Scenario) (s : List ℕ) (actor guest vmpl npt : ℕ) (paging : Paging) → IsSound c → IsDefined c s
        → (part_of (state_after c s) actor).role ≡ roles.Cpu guest vmpl npt paging → IsRanged (event_of (state_after c s) actor).deed }
{}

/// A guest that runs at the opening, as that of an `opened` line does, goes on running in every run.
pub fn running_guests()
    // The guest of an `opened` line runs at the opening.
    ensures opened { (c : Scenario) (g : ℕ) → is_opened c.guests g ≡ true → ((opening c).contents.contexts g).state ≡ Running }

    // No event ends that.
    ensures running { (c : Scenario) (s : List ℕ) (g : ℕ) → IsSound c → IsDefined c s → ((opening c).contents.contexts g).state ≡ Running
        → ((state_after c s).contents.contexts g).state ≡ Running }

    // So no launch of a page for it is ever committed.
    ensures unlaunched { (c : Scenario) (s : List ℕ) (actor guest f page_type frame gpn : ℕ) (imi : Bool) (perms : List ℕ) (size : PageSize) → IsSound c → IsDefined c s
        → ((opening c).contents.contexts guest).state ≡ Running → (part_of (state_after c s) actor).role ≡ roles.Firmware
        → (line_at (part_of (state_after c s) actor).script (part_of (state_after c s) actor).item).item ≡ items.Firmware (commands.LaunchUpdate guest f page_type imi perms)
        → (event_of (state_after c s) actor).deed ≢ deeds.Commit frame gpn size }
{}
