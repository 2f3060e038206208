//! The picks of a driven run are those that its drill would draw.
ghost use Rattle.std.specs.Prelude.{◌<◌};

use crate::DrillTurns;
use drill_gen::Drill;
use hv_strategy::Turns;
use std::process::Abort;
use std::test::Fail;

// The next picks below a count are the same, through the trait.
fn check_pick<T: Turns>(rt: &impl Abort, turns: &mut T, drill: &mut Drill, count: u32)
    requires { 0 < count }
{
    assert!(rt; turns.pick(count) == drill.pick(count));
}

#[test]
fn picks_are_those_of_the_drill(rt: HostRuntime) -> Result<(), Fail> {
    let mut drill = Drill::from_number(7);
    let mut turns = DrillTurns::over(Drill::from_number(7));
    check_pick(&rt, &mut turns, &mut drill, 8);
    check_pick(&rt, &mut turns, &mut drill, 8);
    check_pick(&rt, &mut turns, &mut drill, 5);
    check_pick(&rt, &mut turns, &mut drill, 1);
    let mut rest = turns.end();
    assert!(rt; rest.pick(3) == drill.pick(3));
    Ok(())
}
