use crate::Drill;
use snp_model::{
    Command, GuestSpec, Item, Op, PageSize, PageSpec, Paging, Role, Scenario, Update, WordSpec,
};
use std::test::Fail;

fn access(address: u64, op: Op) -> Item {
    Item::Access { address, op }
}

fn pvalidate(address: u64, validate: bool) -> Item {
    Item::Pvalidate {
        address,
        size: PageSize::Small,
        validate,
    }
}

fn given(frame: u64, asid: u16, gpn: u64, immutable: bool) -> Item {
    Item::Rmpupdate(Update {
        frame,
        size: PageSize::Small,
        assigned: true,
        asid,
        gpn,
        immutable,
    })
}

fn taken_away(frame: u64) -> Item {
    Item::Rmpupdate(Update {
        frame,
        size: PageSize::Small,
        assigned: false,
        asid: 0,
        gpn: 0,
        immutable: false,
    })
}

fn md_init(frame: u64) -> Item {
    Item::Firmware(Command::MdInit { frame })
}

fn page_move(guest: u8, source: u64, target: u64) -> Item {
    Item::Firmware(Command::PageMove {
        guest,
        source,
        target,
    })
}

fn swap_out(guest: u8, source: u64, target: u64, metadata: u64, entry: u8) -> Item {
    Item::Firmware(Command::SwapOut {
        guest,
        source,
        target,
        metadata,
        entry,
    })
}

fn swap_in(guest: u8, source: u64, target: u64, metadata: u64, entry: u8) -> Item {
    Item::Firmware(Command::SwapIn {
        guest,
        source,
        target,
        metadata,
        entry,
    })
}

fn page_reclaim(frame: u64) -> Item {
    Item::Firmware(Command::Reclaim { frame })
}

fn is_item(scenario: &Scenario, actor: usize, place: usize, item: Item) -> bool {
    match scenario.actors.as_slice().get(actor) {
        Some(actor) => match actor.script.as_slice().get(place) {
            Some(line) => line.item == item && line.retries == 0,
            None => false,
        },
        None => false,
    }
}

fn processor(guest: u8, npt: u32) -> Role {
    Role::Cpu {
        guest,
        vmpl: 0,
        npt,
        paging: Paging::Flat,
    }
}

fn page(frame: u32, guest: u8, gpn: u64) -> PageSpec {
    PageSpec {
        frame,
        guest,
        gpn,
        size: PageSize::Small,
        valid: true,
        perms: [0; 3],
    }
}

fn word(frame: u32, index: u16, value: u64) -> WordSpec {
    WordSpec {
        frame,
        index,
        value,
    }
}

fn guest(asid: u16, digits: u8) -> GuestSpec {
    GuestSpec {
        opened: true,
        asid,
        iv: 0,
        key: [digits; 32],
    }
}

// Picks at these counts, one after the other.
fn picks(drill: &mut Drill) -> [u32; 6] {
    [
        drill.pick(8),
        drill.pick(7),
        drill.pick(3),
        drill.pick(1000),
        drill.pick(512),
        drill.pick(u32::MAX),
    ]
}

#[test]
fn first_picks(rt: HostRuntime) {
    for (number, expected) in [
        (0, [1, 4, 2, 425, 137, 1163259907]),
        (7, [2, 6, 1, 631, 149, 1770728691]),
        (u64::MAX, [1, 0, 1, 187, 405, 2066560389]),
    ] {
        let mut drill = Drill::from_number(number);
        assert_eq!(rt; picks(&mut drill), expected, "{number}");
    }
}

#[test]
fn picks_behind_a_scenario(rt: HostRuntime) -> Result<(), Fail> {
    for (number, expected) in [
        (0, [6, 2, 2, 986, 451, 1199388982]),
        (7, [6, 0, 0, 275, 180, 1161854357]),
        (u64::MAX, [4, 5, 2, 814, 486, 1682304176]),
    ] {
        let mut drill = Drill::from_number(number);
        let scenario = drill.scenario(rt.alloc())?;
        assert!(rt; scenario.order.is_empty());
        assert_eq!(rt; picks(&mut drill), expected, "{number}");
    }
    Ok(())
}

// The numbers drawn were computed apart from this program, by the stated generator and the table of draws.
#[test]
fn items(rt: HostRuntime) -> Result<(), Fail> {
    for (number, actor, place, item) in [
        (7, 0, 0, access(57600, Op::Load)),
        (7, 0, 511, pvalidate(32768, true)),
        (7, 1, 0, access(232, Op::Load)),
        (7, 1, 511, access(61712, Op::Load)),
        (7, 2, 0, access(43920, Op::Load)),
        (7, 2, 511, access(58288, Op::Load)),
        (7, 3, 0, access(51968, Op::Xor(67))),
        (7, 3, 511, access(35888, Op::Store(283))),
        (7, 4, 0, access(77928, Op::Store(299015))),
        (7, 4, 511, access(1261592, Op::Xor(1))),
        (7, 5, 0, access(143408, Op::Store(528391))),
        (7, 5, 511, given(401, 0, 0, true)),
        (7, 6, 0, swap_in(1, 303, 75, 401, 24)),
        (7, 6, 511, page_move(2, 130, 139)),
        (7, 7, 0, page_move(2, 131, 139)),
        (7, 7, 511, swap_in(2, 312, 135, 402, 24)),
        (0, 0, 0, access(57248, Op::Load)),
        (0, 1, 0, access(50888, Op::Load)),
        (0, 2, 0, pvalidate(8192, false)),
        (0, 3, 0, access(15800, Op::Load)),
        (0, 4, 0, access(143392, Op::Store(565255))),
        (0, 5, 0, access(290936, Op::Load)),
        (0, 6, 0, page_move(1, 75, 66)),
        (0, 7, 0, swap_out(1, 71, 310, 402, 60)),
        (u64::MAX, 0, 0, access(28136, Op::Load)),
        (u64::MAX, 1, 0, pvalidate(49152, false)),
        (u64::MAX, 2, 0, access(32504, Op::Load)),
        (u64::MAX, 3, 0, access(3080, Op::Load)),
        (u64::MAX, 4, 0, access(143448, Op::Store(573447))),
        (u64::MAX, 5, 0, access(270416, Op::Load)),
        (u64::MAX, 6, 0, swap_out(2, 130, 300, 400, 62)),
        (u64::MAX, 7, 0, page_move(1, 76, 68)),
        (7, 0, 5, access(37088, Op::Store(641))),
        (7, 0, 9, access(34264, Op::Xor(574))),
        (7, 4, 5, given(400, 0, 0, true)),
        (7, 4, 16, access(1245272, Op::Xor(1))),
        (7, 4, 2, access(577648, Op::Load)),
        (7, 4, 4, taken_away(134)),
        (7, 6, 3, md_init(402)),
        (7, 6, 2, page_reclaim(76)),
        (7, 6, 11, swap_in(2, 307, 130, 403, 54)),
        (7, 6, 1, swap_out(2, 139, 314, 402, 11)),
    ] {
        let scenario = Drill::from_number(number).scenario(rt.alloc())?;
        assert!(rt;
            is_item(&scenario, actor, place, item),
            "{number} {actor} {place}"
        );
    }
    Ok(())
}

#[test]
fn opening(rt: HostRuntime) -> Result<(), Fail> {
    let scenario = Drill::from_number(7).scenario(rt.alloc())?;
    assert_eq!(rt; (scenario.version, scenario.regions), (1, 2));
    let guests = scenario.guests.as_slice();
    assert!(rt; guests == [guest(1, 0x11), guest(2, 0x22)].as_slice());
    for (place, expected) in [
        (0, page(64, 1, 0)),
        (7, page(71, 1, 7)),
        (8, page(128, 2, 0)),
        (15, page(135, 2, 7)),
    ] {
        assert_eq!(rt;
            scenario.pages.as_slice().get(place),
            Some(&expected),
            "{place}"
        );
    }
    for (place, expected) in [
        (0, word(16, 0, 0x11007)),
        (1, word(17, 0, 0x12007)),
        (2, word(18, 0, 0x13007)),
        (3, word(19, 0, 0x40007)),
        (18, word(19, 15, 0x4f007)),
        (19, word(32, 0, 0x21007)),
        (22, word(35, 0, 0x80007)),
        (37, word(35, 15, 0x8f007)),
    ] {
        assert_eq!(rt;
            scenario.words.as_slice().get(place),
            Some(&expected),
            "{place}"
        );
    }
    assert_eq!(rt; (scenario.pages.len(), scenario.words.len()), (16, 38));
    Ok(())
}

#[test]
fn actors(rt: HostRuntime) -> Result<(), Fail> {
    let scenario = Drill::from_number(7).scenario(rt.alloc())?;
    for (place, expected) in [
        (0, processor(1, 16)),
        (1, processor(1, 16)),
        (2, processor(2, 32)),
        (3, processor(2, 32)),
        (4, Role::Host),
        (5, Role::Host),
        (6, Role::Firmware),
        (7, Role::Firmware),
    ] {
        let is_right = match scenario.actors.as_slice().get(place) {
            Some(actor) => actor.role == expected && actor.script.len() == 512,
            None => false,
        };
        assert!(rt; is_right, "{place}");
    }
    assert_eq!(rt; scenario.actors.len(), 8);
    Ok(())
}
