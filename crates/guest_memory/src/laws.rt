//! What the machine's events have to do with this memory.

ghost use Rattle.std.specs.Prelude.{◌≡◌, ℕ, Bool, true, Some, None};
ghost use Rattle.std.specs.FinMap.{get};
ghost use Rattle.snp_model.specs.declared.entry.PageSize.{PageSize};
ghost use Rattle.snp_model.specs.declared.event.Deed.TheVariants as deeds;
ghost use Rattle.snp_model.specs.declared.event.Outcome.TheVariants as outcomes;
ghost use Rattle.snp_model.specs.declared.item.Item.TheVariants as items;
ghost use Rattle.snp_model.specs.declared.scenario.Paging.{Paging};
ghost use Rattle.snp_model.specs.declared.scenario.Role.TheVariants as roles;
ghost use Rattle.snp_model.specs.Facts.{frames_in};
ghost use Rattle.snp_model.specs.GuestMemory.{Memory, next_use};
ghost use Rattle.snp_model.specs.Locks.{in_range};
ghost use Rattle.snp_model.specs.Premises.{IsDisciplinedStep};
ghost use Rattle.snp_model.specs.State.{State, part_of};
ghost use Rattle.snp_model.specs.Step.{event_of, line_at};
ghost use Rattle.guest_memory.specs.Uses.{use_by};

/// A law: what the next event of a guest's processor does with its guest's memory, in any state of the machine, is what
/// `apply` makes of this event with its item.
#[tactic(auto, using(crate::proofs::BelongLaws::next_use_by))]
pub fn own_events()
    ensures { (guest vmpl npt : ℕ) (paging : Paging) (m : State) (actor : ℕ) → (part_of m actor).role ≡ roles.Cpu guest vmpl npt paging → next_use guest m actor ≡ use_by (event_of m actor) (line_at (part_of m actor).script (part_of m actor).item).item }
{}

/// A law: a guest that is disciplined at a step asks there for the validation of no page that it holds, whatever carry flag it is
/// answered with. So a guest that relies on the carry flag alone isn't disciplined.
#[tactic(auto, using(crate::proofs::DisciplineLaws::asks_for_lacking))]
pub fn asks_for_lacking()
    ensures { (guest vmpl npt frame gpn address : ℕ) (paging : Paging) (size asked : PageSize) (carry : Bool) (m : State) (actor : ℕ) (memory : Memory) → (part_of m actor).role ≡ roles.Cpu guest vmpl npt paging → (line_at (part_of m actor).script (part_of m actor).item).item ≡ items.Pvalidate address asked true → (event_of m actor).deed ≡ deeds.Commit frame gpn size → (event_of m actor).outcome ≡ Some (outcomes.Carry carry) → IsDisciplinedStep guest m actor memory → (page : ℕ) → in_range gpn (frames_in size) page ≡ true → get memory page ≡ None }
{}
