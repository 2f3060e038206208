//! The schedule of a drill, which is drawn as it is played.
ghost use Rattle.std.specs.Prelude.{◌≡◌, ◌<◌, ◌≤◌, length, slice_get, Some};
ghost use Rattle.machine_core.specs.Machine.{state_of};
ghost use Rattle.snp_model.specs.Drill.{unfinished};
ghost use Rattle.snp_model.specs.Limits.{most};
ghost use Rattle.snp_model.specs.State.{IsUnfinished};
ghost use Rattle.snp_top.specs.Drills.{PlaysPicks};
ghost use Rattle.snp_top.specs.Schedule.{AtOpening};

use drill_gen::Drill;
use machine_core::Machine;
use run_journal::Journal;

/// Runs the schedule that a drill draws, and takes down its events: while actors aren't finished, the next event is of the
/// one at the drawn place among them, from 0 upwards. The machine has so many actors and is as `Machine::build` gave it,
/// and the journal is empty, with room for 32 events of each attempt. Takes no memory.
pub fn play_picks(machine: &mut Machine, journal: &mut Journal, drill: &mut Drill, actors: u32)
    requires opening { AtOpening (state_of machine.old) journal.old }
    requires counted { actors ≡ length (state_of machine.old).actors }
    ensures { PlaysPicks (state_of machine.old) drill.old journal.new (state_of machine.new) }
{
    let mut left = count_unfinished(machine, actors);
    'events: while left != 0 {
        let place = drill.pick(left);
        let actor = unfinished_at(machine, actors, place);
        let event = machine.step(actor);
        journal.push(actor, event);
        if machine.finished(actor) {
            left -= 1;
        }
    }
}

// How many actors of so many aren't finished.
fn count_unfinished(machine: &Machine, actors: u32) -> u32
    requires { actors ≡ length (state_of machine.now).actors }
    ensures { result ≡ length (unfinished (state_of machine.now)) }
{
    let mut left = 0;
    'actors: for k in 0..actors {
        if !machine.finished(k + 1) {
            left += 1;
        }
    }
    left
}

// The actor at a place among those that aren't finished, counted from 0 upwards.
fn unfinished_at(machine: &Machine, actors: u32, place: u32) -> u32
    requires counted { actors ≡ length (state_of machine.now).actors }
    requires within { place < length (unfinished (state_of machine.now)) }
    ensures place { slice_get (unfinished (state_of machine.now)) place ≡ Some result }
    ensures unfinished { IsUnfinished (state_of machine.now) result }
{
    let mut behind = place;
    'actors: for k in 0..actors {
        if !machine.finished(k + 1) {
            if behind == 0 {
                return k + 1;
            }
            behind -= 1;
        }
    }
    unreachable!()
}
