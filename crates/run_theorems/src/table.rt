ghost use Rattle.std.specs.Prelude.{◌≡◌, ℕ, Some};
ghost use Rattle.snp_model.specs.declared.event.Deed.TheVariants.{Table};
ghost use Rattle.snp_model.specs.declared.scenario.Paging.{Paging};
ghost use Rattle.snp_model.specs.declared.scenario.Role.TheVariants.{Cpu};
ghost use Rattle.snp_model.specs.State.{State, part_of};
ghost use Rattle.snp_model.specs.Step.{event_of};
ghost use Rattle.run_theorems.specs.CheckedReads.{IsChecked};

/// A walk reads a word of a guest's table only where the RMP lets the guest through, by the entry of the frame at that very event,
/// and it reads the word that stands there then. So no table in a page that the hypervisor has taken, swapped or never
/// given to the guest leads it anywhere.
#[tactic(auto, using(crate::proofs::CheckedReadLaws::table_checked))]
pub fn checked_reads()
    ensures { (m : State) (actor guest vmpl npt gpn index frame value : ℕ) (paging : Paging) → (part_of m actor).role ≡ Cpu guest vmpl npt paging
        → (event_of m actor).deed ≡ Table gpn index frame (Some value) → IsChecked m guest vmpl gpn index frame value }
{}
