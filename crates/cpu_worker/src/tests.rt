//! A worker whose passes count down, behind a gate that counts them.
ghost use Rattle.std.specs.Prelude.{◌≡◌, ◌-◌, ◌==◌, Some};

use crate::work;
use outside_port::{Busy, Gate, OpenGate, Steps};
use snp_model::{Deed, Event};
use std::sync::Wait;
use std::sync::atomic::{AtomicU64, Ordering};
use std::test::Fail;

// A gate that counts how often its actor has passed it, and how often another one has.
#[derive(Drop)]
struct Counted {
    actor: u32,
    passed: AtomicU64,
    others: AtomicU64,
}

impl Counted {
    fn of(actor: u32) -> Counted {
        Counted {
            actor,
            passed: AtomicU64::new(0),
            others: AtomicU64::new(0),
        }
    }
}

impl Gate for Counted {
    fn pass<R: Wait>(&self, rt: &R, actor: u32) {
        if actor == self.actor {
            self.passed.fetch_add(1, Ordering::SeqCst);
        } else {
            self.others.fetch_add(1, Ordering::SeqCst);
        }
    }
}

// A pass that has so many events to make, and first finds something held a few times. It counts its steps, and of them
// those before which the gate wasn't passed exactly once.
#[derive(Drop)]
struct Count {
    actor: u32,
    left: u32,
    held: u32,
    steps: u64,
    astray: u64,
}

// It looks at the gate. All else is in the passes.
#[derive(Drop)]
struct Countdown<'a> {
    gate: &'a Counted,
}

impl Steps for Countdown<'_> {
    type Pass = Count;

    ghost is_of = { λ object pass. Unit {0} };

    ghost actor_of = { λ pass. pass.actor };

    ghost refused = { λ pass. 4294967296 - pass.held };

    ghost done = { λ pass. Some (pass.left == 0) };

    ghost made = { λ pass. Some (4294967296 - pass.left) };

    fn actor(&self, pass: &Count) -> u32 {
        pass.actor
    }

    fn finished<R: Wait>(&self, rt: &R, pass: &Count) -> bool {
        pass.left == 0
    }

    fn one<R: Wait>(&self, rt: &R, pass: &mut Count) -> Result<Event, Busy> {
        pass.steps = pass.steps.saturating_add(1);
        if self.gate.passed.load(Ordering::SeqCst) != pass.steps {
            pass.astray = pass.astray.saturating_add(1);
        }
        if pass.held > 0 {
            pass.held -= 1;
            return Err(Busy { cell: 0, holder: 2 });
        }
        if pass.left > 0 {
            pass.left -= 1;
        }
        Ok(Event {
            item: 0,
            attempt: 0,
            deed: Deed::Begin,
            outcome: None,
        })
    }
}

// A pass of actor 3 that has made no step.
fn count_from(left: u32, held: u32) -> Count {
    Count {
        actor: 3,
        left,
        held,
        steps: 0,
        astray: 0,
    }
}

#[test]
fn a_worker_steps_until_its_actor_is_finished(rt: HostRuntime) -> Result<(), Fail> {
    let gate = Counted::of(3);
    let mut pass = count_from(3, 0);
    work(&rt, &Countdown { gate: &gate }, &OpenGate, &mut pass);
    assert!(rt; pass.left == 0 && pass.steps == 3);
    Ok(())
}

// The gate is passed once before each step, whether or not it found something held, and never without a step.
#[test]
fn a_worker_passes_its_gate_once_a_step(rt: HostRuntime) -> Result<(), Fail> {
    for (left, held, steps) in [(0, 0, 0), (1, 0, 1), (3, 2, 5)] {
        let gate = Counted::of(3);
        let mut pass = count_from(left, held);
        work(&rt, &Countdown { gate: &gate }, &gate, &mut pass);
        assert!(rt; pass.left == 0 && pass.held == 0);
        assert_eq!(rt; pass.steps, steps);
        assert_eq!(rt; pass.astray, 0);
        assert_eq!(rt; gate.passed.load(Ordering::SeqCst), steps);
        assert_eq!(rt; gate.others.load(Ordering::SeqCst), 0);
    }
    Ok(())
}
