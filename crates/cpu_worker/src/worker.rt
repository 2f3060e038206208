ghost use Rattle.std.specs.Prelude.{◌≡◌, true, IfSome};

use outside_port::{Gate, Steps};
use std::sync::Wait;

/// Steps the actor of a pass, each time after the gate let it through, until it has passed its last item. A step that
/// found something held is tried again.
pub fn work<S: Steps, G: Gate, R: Wait>(rt: &R, steps: &S, gate: &G, pass: &mut S::Pass)
    requires { S.is_of steps.now pass.old }
    ensures same { S.is_of steps.now pass.new }
    ensures actor { S.actor_of pass.new ≡ S.actor_of pass.old }
    ensures done { IfSome (S.done pass.new) (λ done. done ≡ true) }
{
    'rounds: for _ in rt.forever() {
        if steps.finished(rt, pass) {
            return;
        }
        gate.pass(rt, steps.actor(pass));
        let _ = steps.one(rt, pass);
    }
    unreachable!()
}
