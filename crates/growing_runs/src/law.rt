ghost use Rattle.std.specs.Prelude.{◌≡◌, ◌+◌, ◌<◌, ◌≤◌, ℕ, List, length};
ghost use Rattle.snp_model.specs.declared.event.Event.{Event};
ghost use Rattle.snp_model.specs.declared.item.Item.{Item};
ghost use Rattle.snp_model.specs.declared.item.Line.{Line};
ghost use Rattle.snp_model.specs.declared.scenario.GuestSpec.{GuestSpec};
ghost use Rattle.snp_model.specs.declared.scenario.Role.{Role};
ghost use Rattle.snp_model.specs.declared.scenario.Scenario.{Scenario};
ghost use Rattle.snp_model.specs.Attempts.{attempts_of};
ghost use Rattle.snp_model.specs.GuestMemory.{Memory, memory_from};
ghost use Rattle.snp_model.specs.Journals.{IsRun, state_at};
ghost use Rattle.snp_model.specs.Opening.{opening};
ghost use Rattle.snp_model.specs.Premises.{IsDisciplinedFrom};
ghost use Rattle.snp_model.specs.Run.{IsDefinedFrom};
ghost use Rattle.snp_model.specs.Sound.{IsSound};
ghost use Rattle.snp_model.specs.Spelled.{IsSpelled, IsWide};
ghost use Rattle.snp_model.specs.State.{ActorPart, State, View, IsUnfinished, part_of};
ghost use Rattle.snp_model.specs.Step.{after, event_of, item_move};
ghost use Rattle.run_laws.specs.KeptLocks.{KeepsLocks};
ghost use Rattle.run_laws.specs.Ready.{AreReady};
ghost use Rattle.growing_runs.specs.Drives.{IsDeedInside, MayTake};
ghost use Rattle.growing_runs.specs.Extending.{Commutes, KeepsRun, actor_of, appended, with_lines, with_script};
ghost use Rattle.growing_runs.specs.GoingOn.{AreRested, MayGoOn};
ghost use Rattle.growing_runs.specs.Plain.{AreAllPlain, IsPlain, PassesNone};

/// A script may go on while it is run. Where an actor gets further lines, a schedule that named unfinished actors alone makes the
/// same events as before, and leaves the same state but for these lines; so a run of a scenario is a run of the scenario in
/// which the script goes on, and an item that is appended can be answered by what the run has shown so far.
pub fn extended_scripts()
    // One event of an actor that isn't finished, be it the one that gets the lines or another, from any state.
    ensures step { (m : State) (actor other : ℕ) (lines : List Line) → IsUnfinished m other → Commutes actor lines m other }

    // A schedule, from any state on.
    ensures from { (m : State) (actor : ℕ) (lines : List Line) (schedule : List ℕ) → IsDefinedFrom m schedule → KeepsRun actor lines m schedule }

    // A run of a scenario, with the state at its end.
    ensures run { (c : Scenario) (list : List (ℕ × Event)) (actor : ℕ) (lines : List Line) → IsRun c list → IsRun (with_script actor lines c) list }
    ensures state { (c : Scenario) (list : List (ℕ × Event)) (actor : ℕ) (lines : List Line) → IsRun c list
        → state_at (with_script actor lines c) list ≡ with_lines actor lines (state_at c list) }

    // One more item that is attempted once is one more attempt.
    ensures attempts { (c : Scenario) (actor : ℕ) (item : Item) → 0 < actor → actor ≤ length c.actors → attempts_of (appended actor item c) ≡ attempts_of c + 1 }
{}

/// An item that is no skip passes over none, whoever has it.
pub fn plain_scripts()
    ensures passes { (frames : ℕ) (guests : List GuestSpec) (view : View) (part : ActorPart) (role : Role) (item : Item) → IsPlain item
        → PassesNone (item_move frames guests view part role item).outcome }
{}

/// An actor that has finished a script without skips stands at its end, and is unfinished again once the script goes on with an item.
pub fn ended_scripts()
    ensures ends { (c : Scenario) (list : List (ℕ × Event)) (actor : ℕ) → IsRun c list → AreAllPlain (actor_of c actor).script → (part_of (opening c) actor).item ≡ 0
        → 0 < actor → actor ≤ length c.actors → (IsUnfinished (state_at c list) actor → ⊥)
        → (part_of (state_at c list) actor).item ≡ length (part_of (state_at c list) actor).script }
    ensures goes_on { (c : Scenario) (list : List (ℕ × Event)) (actor : ℕ) (item : Item) → IsRun c list → 0 < actor → actor ≤ length c.actors
        → (part_of (state_at c list) actor).item ≡ length (part_of (state_at c list) actor).script
        → IsUnfinished (state_at (appended actor item c) list) actor }
{}

/// A guest's memory, and its discipline, are the same where a script goes on.
pub fn disciplined_scripts()
    ensures memory { (guest : ℕ) (m : State) (memory : Memory) (actor : ℕ) (lines : List Line) (schedule : List ℕ) → IsDefinedFrom m schedule
        → memory_from guest (with_lines actor lines m) memory schedule ≡ memory_from guest m memory schedule }
    ensures disciplined { (guest : ℕ) (m : State) (memory : Memory) (actor : ℕ) (lines : List Line) (schedule : List ℕ) → IsDefinedFrom m schedule
        → IsDisciplinedFrom guest m memory schedule → IsDisciplinedFrom guest (with_lines actor lines m) memory schedule }
{}

/// What an implementation of runs keeps of its state beside the state itself stays where the script of an actor goes on that has
/// passed its last item: its actors are ready for their next events, their locks are as runs keep them, and each that has
/// passed its last item is at rest.
pub fn kept_scripts()
    // At the opening all are at rest, and each event leaves them so.
    ensures opening { (c : Scenario) → AreRested (opening c) }
    ensures after { (m : State) (actor : ℕ) → AreRested m → IsUnfinished m actor → AreRested (after m actor) }
    ensures run { (c : Scenario) (list : List (ℕ × Event)) → IsRun c list → AreRested (state_at c list) }

    // And so a script that goes on.
    ensures rested { (m : State) (actor : ℕ) (lines : List Line) → MayGoOn m actor lines → AreRested m → AreRested (with_lines actor lines m) }
    ensures ready { (m : State) (actor : ℕ) (lines : List Line) → MayGoOn m actor lines → AreRested m → AreReady m → KeepsLocks m → AreReady (with_lines actor lines m) }
    ensures locks { (m : State) (actor : ℕ) (lines : List Line) → MayGoOn m actor lines → KeepsLocks m → KeepsLocks (with_lines actor lines m) }
{}

/// An access that an actor makes which is ready for its next event is at a frame of memory and at a guest page number.
pub fn inside_accesses()
    ensures { (m : State) (actor : ℕ) → AreReady m → IsUnfinished m actor → IsDeedInside m.frames (event_of m actor).deed }
{}

/// A scenario whose script goes on with an item that its actor may take has the bounds of a scenario, as long as it has fewer than
/// 8,192 attempts, and it is spelled as one where the item's numbers are words of 64 bits: so some text can say it, by the law
/// `valid_is_sound_and_spelled` of `scenario_text`.
pub fn grown_scenarios()
    ensures sound { (c : Scenario) (actor : ℕ) (item : Item) → IsSound c → MayTake c actor item → attempts_of c < 8192 → IsSound (appended actor item c) }
    ensures spelled { (c : Scenario) (actor : ℕ) (item : Item) → IsSpelled c → 0 < actor → actor ≤ length c.actors → IsWide item → IsSpelled (appended actor item c) }
{}
