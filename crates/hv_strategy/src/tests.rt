//! A strategy that splits the page of 2 MB at frame 0, and takes pages back that a guest has met last.
ghost use Rattle.std.specs.Prelude.{◌≡◌, if◌then◌else◌};
ghost use Rattle.snp_model.specs.declared.item.Item.TheVariants as items;
ghost use Rattle.snp_model.specs.declared.command.Command.TheVariants as commands;

use crate::{Acts, Strategy};
use growing_runs::Sight;
use snp_model::{Command, Item};
use std::test::Fail;

// It remembers nothing: all that it answers by is in the sight.
#[derive(Drop)]
struct Splitter;

impl Acts for Splitter {
    ghost may = { λ strategy sight item. item ≡ (if sight.firmware then items.Firmware (commands.Reclaim sight.frame) else items.Psmash 0) };

    fn act(&self, sight: &Sight) -> Item {
        if sight.firmware {
            Item::Firmware(Command::Reclaim {
                frame: u64::from(sight.frame),
            })
        } else {
            Item::Psmash { frame: 0 }
        }
    }
}

#[test]
fn a_strategy_answers_by_what_it_sees(rt: HostRuntime) -> Result<(), Fail> {
    let strategy = Strategy::new(Splitter);
    let seen = Sight {
        round: 1,
        firmware: true,
        frames: 512,
        gpn: 3,
        frame: 9,
        last: None,
    };
    let answer = strategy.answer(&seen);
    assert!(rt; answer == Item::Firmware(Command::Reclaim { frame: 9 }));
    let other = Sight {
        firmware: false,
        ..seen
    };
    let answer = strategy.answer(&other);
    assert!(rt; answer == Item::Psmash { frame: 0 });
    Ok(())
}
