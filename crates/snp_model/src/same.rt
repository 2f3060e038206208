//! Whether two scenarios are equal.
ghost use Rattle.std.specs.Prelude.{◌≡◌, ◌↔◌, IsTrue};

use crate::{
    Actor, Command, GuestSpec, Item, Line, Op, PageSpec, Role, Scenario, SkipTest, Turn, Update,
    WordSpec,
};

// Values that are compared whole: the answer says whether they are equal, as `==` of a list of them doesn't.
trait Same {
    fn same(&self, other: &Self) -> bool
        ensures { IsTrue result ↔ (self.now ≡ other.now) };
}

impl Same for GuestSpec {
    fn same(&self, other: &GuestSpec) -> bool {
        self == other
    }
}

impl Same for PageSpec {
    fn same(&self, other: &PageSpec) -> bool {
        self == other
    }
}

impl Same for WordSpec {
    fn same(&self, other: &WordSpec) -> bool {
        self == other
    }
}

impl Same for Turn {
    fn same(&self, other: &Turn) -> bool {
        self == other
    }
}

impl Same for Role {
    fn same(&self, other: &Role) -> bool {
        self == other
    }
}

impl Same for Op {
    fn same(&self, other: &Op) -> bool {
        self == other
    }
}

impl Same for Update {
    fn same(&self, other: &Update) -> bool {
        self == other
    }
}

impl Same for SkipTest {
    fn same(&self, other: &SkipTest) -> bool {
        self == other
    }
}

impl Same for Command {
    fn same(&self, other: &Command) -> bool {
        self == other
    }
}

impl Same for Item {
    fn same(&self, other: &Item) -> bool {
        match (self, other) {
            (
                Item::Access { address, op },
                Item::Access {
                    address: place,
                    op: change,
                },
            ) => address == place && op.same(change),
            (
                Item::Pvalidate {
                    address,
                    size,
                    validate,
                },
                Item::Pvalidate {
                    address: place,
                    size: extent,
                    validate: sets,
                },
            ) => address == place && size == extent && validate == sets,
            (
                Item::Rmpadjust {
                    address,
                    size,
                    target,
                    mask,
                    vmsa,
                },
                Item::Rmpadjust {
                    address: place,
                    size: extent,
                    target: level,
                    mask: perms,
                    vmsa: area,
                },
            ) => address == place
                && size == extent
                && target == level
                && mask == perms
                && vmsa == area,
            (Item::Rmpupdate(update), Item::Rmpupdate(another)) => update.same(another),
            (Item::Psmash { frame }, Item::Psmash { frame: place }) => frame == place,
            (Item::Firmware(command), Item::Firmware(another)) => command.same(another),
            (
                Item::Skip { count, test },
                Item::Skip {
                    count: many,
                    test: another,
                },
            ) => count == many && test.same(another),
            _ => false,
        }
    }
}

impl Same for Line {
    fn same(&self, other: &Line) -> bool {
        self.retries == other.retries && self.item.same(&other.item)
    }
}

impl Same for Actor {
    fn same(&self, other: &Actor) -> bool {
        self.role.same(&other.role) && same_lists(self.script.as_slice(), other.script.as_slice())
    }
}

impl Scenario {
    /// Whether it is equal to another.
    pub fn is_same(&self, other: &Scenario) -> bool
        ensures { IsTrue result ↔ (self.now ≡ other.now) }
    {
        self.version == other.version
            && self.regions == other.regions
            && same_lists(self.guests.as_slice(), other.guests.as_slice())
            && same_lists(self.pages.as_slice(), other.pages.as_slice())
            && same_lists(self.words.as_slice(), other.words.as_slice())
            && same_lists(self.actors.as_slice(), other.actors.as_slice())
            && same_lists(self.order.as_slice(), other.order.as_slice())
    }
}

// Whether two lists are equal.
fn same_lists<T: Same>(these: &[T], those: &[T]) -> bool
    ensures { IsTrue result ↔ (these.now ≡ those.now) }
{
    if these.len() != those.len() {
        return false;
    }
    'elements: for k in 0..these.len() {
        if !these[k].same(&those[k]) {
            return false;
        }
    }
    true
}
