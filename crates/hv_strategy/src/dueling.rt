ghost use Rattle.std.specs.Prelude.{◌≡◌, ℕ, ◌+◌, ◌<◌, ◌≤◌, []};
ghost use Rattle.snp_model.specs.declared.event.Event.{Event};
ghost use Rattle.snp_model.specs.declared.item.Item.{Item};
ghost use Rattle.snp_model.specs.declared.scenario.Role.TheVariants.{Host, Firmware};
ghost use Rattle.snp_model.specs.Journals.{IsComplete, IsRun};
ghost use Rattle.snp_model.specs.declared.scenario.Scenario.{Scenario};
ghost use Rattle.growing_runs.specs.Duels.{DuelRun, IsAnswer, TakesPart, IsDuelOf, IsSight, answers_left, counted, has_answer, seen, sight_of};
ghost use Rattle.growing_runs.specs.Extending.{appended};
ghost use Rattle.growing_runs.specs.declared.sight.Sight.{Sight};

use crate::driver::{Asks, drive};
use crate::ring::{Ring, Turns};
use growing_runs::{Duel, Sight};
use snp_model::{Event, Item};

/// What answers each sight in range with an item in range.
pub trait Acts {
    // What it may answer at a sight.
    ghost may: { Self → Sight → Item → Type 0 };

    /// Its answer at a sight in range.
    fn act(&self, sight: &Sight) -> Item
        requires range { IsSight sight.now }
        ensures may { may self.now sight.now result }
        ensures range { IsAnswer sight.now result };
}

/// A stored strategy.
#[derive(Drop)]
pub struct Strategy<A: Acts> {
    acts: A,
}

impl<A: Acts> Strategy<A> {
    /// Stores it.
    pub fn new(acts: A) -> Strategy<A>
        ensures { result.acts ≡ acts }
    {
        Strategy { acts }
    }

    /// Asks a sight in range.
    pub fn answer(&self, sight: &Sight) -> Item
        requires { IsSight sight.now }
        ensures may { A.may self.now.acts sight.now result }
        ensures range { IsAnswer sight.now result }
    {
        self.acts.act(sight)
    }
}

/// The two of a duel, with the strategy that answers for both.
#[derive(Drop)]
pub struct Duelists<'a, A: Acts> {
    pub strategy: &'a Strategy<A>,
    pub duel: Duel,
}

impl<'a, A: Acts> Asks for Duelists<'a, A> {
    ghost asks = { λ d actor. has_answer d.duel actor };

    ghost gives = { λ d actor item e. A.may d.strategy.now.acts (sight_of d.duel actor) item × IsAnswer (sight_of d.duel actor) item × (e.strategy ≡ d.strategy) × (e.duel ≡ counted d.duel actor) };

    ghost sees = { λ d actor item event e. (e.strategy ≡ d.strategy) × (e.duel ≡ seen actor event d.duel) };

    ghost left = { λ d. answers_left d.duel };

    ghost suits = { λ d c. IsDuelOf d.duel c };

    fn asks(&self, actor: u32) -> bool {
        self.duel.has_answer(actor)
    }

    #[tactic(auto, using(growing_runs::proofs::DuelLaws::sight_inside, growing_runs::proofs::DuelLaws::duel_apart))]
    fn answer(&mut self, actor: u32) -> Item {
        let item = self.strategy.answer(&self.duel.sight(actor));
        self.duel.count(actor);
        item
    }

    fn see(&mut self, actor: u32, _item: &Item, event: &Event) {
        self.duel.see(actor, event);
    }

    ghost use Rattle.std.proofs.Common.{sym, subst};
    ghost use Rattle.growing_runs.specs.declared.sight.Duel.{Duel};
    ghost use Rattle.growing_runs.proofs.DuelLaws.{duel_fits, duel_suits, duel_ends, duel_sees, duel_keeps};

    ghost answers_fit = { λ a b c actor item suits asks gives. duel_fits a.duel c actor item suits asks gives.1 };

    ghost answers_suit = { λ a b c actor item suits asks gives. subst (λ (d : Duel). IsDuelOf d (appended actor item c)) (sym gives.3) (duel_suits a.duel c actor item suits gives.1) };

    ghost answers_end = { λ a b c actor item suits asks gives. duel_ends a.duel b.duel c actor suits asks gives.3 };

    ghost events_suit = { λ a b c actor item event suits inside sees. subst (λ (d : Duel). IsDuelOf d c) (sym sees.1) (duel_sees a.duel c actor event suits inside) };

    ghost events_keep = { λ a b actor item event sees. duel_keeps a.duel b.duel actor event sees.1 };
}

/// A duel: while an actor is live, a picked one makes an event; where it is finished, it gets the strategy's answer first. Takes no
/// memory.
pub fn duel<R: Ring, A: Acts, T: Turns>(
    ring: &mut R,
    strategy: &Strategy<A>,
    host: u32,
    firmware: u32,
    rounds: u32,
    turns: &mut T,
)
    requires none { R.list ring.old ≡ [] }
    requires host { TakesPart (R.scenario ring.old) host Host }
    requires firmware { TakesPart (R.scenario ring.old) firmware Firmware }
    requires room { rounds + rounds ≤ R.spare ring.old }
    ensures duel { DuelRun (A.may strategy.now.acts) (record { place = T.place; later = T.later }) (R.scenario ring.old) host firmware rounds (T.state turns.old) (R.scenario ring.new) (R.list ring.new) (T.state turns.new) }
    ensures run { IsRun (R.scenario ring.new) (R.list ring.new) }
    ensures complete { IsComplete (R.scenario ring.new) (R.list ring.new) }
{
    let frames = ring.frames();
    let duel = Duel {
        frames,
        host,
        firmware,
        rounds,
        by_host: 0,
        by_firmware: 0,
        gpn: 0,
        frame: 0,
        last_host: None,
        last_firmware: None,
    };
    let mut duelists = Duelists { strategy, duel };
    drive(ring, &mut duelists, turns);
}
