ghost use Rattle.std.specs.Prelude.{◌≡◌, ◌<◌, ◌≤◌, ◌*◌, ◌%◌, ◌^◌};
ghost use Rattle.growing_runs.specs.Duels.{IsSight};
ghost use Rattle.snp_model.specs.Bounds.{IsFirmwareItem, IsHostItem};
ghost use Rattle.growing_runs.specs.Plain.{IsPlain};
ghost use Rattle.hv_strategy.specs.Shipped.{firmware_item, given, host_item, shipped_item};

use crate::dueling::Acts;
use growing_runs::Sight;
use snp_model::{Command, Item, Op, PageSize, Update};

// The frame that pages are moved to, and put in the place of others.
const TARGET: u64 = 112;

/// The strategy that is shipped. The processor of the hypervisor, round after round: gives the frame that was last accessed to
/// the guest with ASID 1 anew; gives it frame 112; sets the word for the page in the table of frame 19 to frame 112; takes the
/// frame back. The firmware moves the frame that was last accessed to frame 112, and reclaims that.
#[derive(Clone, Copy, Debug, PartialEq, Eq)]
pub struct Shipped;

impl Acts for Shipped {
    ghost may = { λ shipped sight item. item ≡ shipped_item sight };

    fn act(&self, sight: &Sight) -> Item {
        if sight.firmware {
            firmware_item(sight)
        } else {
            host_item(sight)
        }
    }
}

// RMPUPDATE that gives a page of 4 KB to the guest with ASID 1.
fn given(frame: u64, gpn: u64) -> Item
    requires { gpn < 2 ^ 36 }
    ensures item { result ≡ given frame gpn }
{
    Item::Rmpupdate(Update {
        frame,
        size: PageSize::Small,
        assigned: true,
        asid: 1,
        gpn,
        immutable: false,
    })
}

// What the processor of the hypervisor does.
#[tactic(auto, unfolding(crate::specs::Shipped::host_item))]
fn host_item(sight: &Sight) -> Item
    requires { IsSight sight.now }
    ensures item { result ≡ host_item sight.now }
    ensures plain { IsPlain result }
    ensures range { IsHostItem sight.now.frames result }
{
    let frame = u64::from(sight.frame);
    if sight.round % 4 == 0 {
        given(frame, sight.gpn)
    } else if sight.round % 4 == 1 {
        given(TARGET, sight.gpn)
    } else if sight.round % 4 == 2 {
        Item::Access {
            address: 4096 * 19 + 8 * (sight.gpn % 512),
            op: Op::Store(458_759),
        }
    } else {
        Item::Rmpupdate(Update {
            frame,
            size: PageSize::Small,
            assigned: false,
            asid: 0,
            gpn: 0,
            immutable: false,
        })
    }
}

// What the firmware does.
#[tactic(auto, unfolding(crate::specs::Shipped::firmware_item))]
fn firmware_item(sight: &Sight) -> Item
    ensures item { result ≡ firmware_item sight.now }
    ensures plain { IsPlain result }
    ensures range { IsFirmwareItem result }
{
    if sight.round % 2 == 0 {
        Item::Firmware(Command::PageMove {
            guest: 1,
            source: u64::from(sight.frame),
            target: TARGET,
        })
    } else {
        Item::Firmware(Command::Reclaim { frame: TARGET })
    }
}
