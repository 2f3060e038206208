use crate::item_tests::{CPU, is_line, is_refused_item, once, retried, skip};
use crate::tests::is_refused;
use crate::{ScenarioFault, read_scenario};
use snp_model::{Command, Item, Line, Reason, Role, Scenario, SkipTest};

// Lines of commands that are refused.
const REFUSED_COMMANDS: [(Role, &str, Reason); 60] = [
    (Role::Firmware, "gctx_create 1", Reason::Form),
    (Role::Firmware, "gctx_create 1 2 3", Reason::Form),
    (Role::Firmware, "gctx_create 1 2 retry", Reason::Form),
    (Role::Firmware, "gctx_create 1 2 retry 1 2", Reason::Form),
    (Role::Firmware, "gctx_create 0 x", Reason::Range),
    (Role::Firmware, "gctx_create 9 x", Reason::Range),
    (Role::Firmware, "gctx_create g x", Reason::Number),
    (Role::Firmware, "gctx_create 8 x again 0", Reason::Number),
    (Role::Firmware, "gctx_create 8 2 again 0", Reason::Form),
    (Role::Firmware, "gctx_create 8 2 retry 0", Reason::Range),
    (Role::Firmware, "gctx_create 8 2 retry 256", Reason::Range),
    (Role::Firmware, "gctx_create 8 2 retry one", Reason::Number),
    (Role::Firmware, "activate 1", Reason::Form),
    (Role::Firmware, "activate 0 1024", Reason::Range),
    (Role::Firmware, "activate 1 1024", Reason::Range),
    (Role::Firmware, "activate 1 x again 0", Reason::Number),
    (Role::Firmware, "activate 1 5 again 0", Reason::Form),
    (Role::Firmware, "launch_start", Reason::Form),
    (Role::Firmware, "launch_start 1 2", Reason::Form),
    (Role::Firmware, "launch_start 9 again 0", Reason::Range),
    (Role::Firmware, "launch_start x again 0", Reason::Number),
    (Role::Firmware, "launch_start 1 again 0", Reason::Form),
    (Role::Firmware, "launch_start 1 retry 0", Reason::Range),
    (Role::Firmware, "launch_update 1 2 1 0 0 0", Reason::Form),
    (
        Role::Firmware,
        "launch_update 1 2 1 0 0 0 0 0",
        Reason::Form,
    ),
    (Role::Firmware, "launch_update 0 x 1 0 0 0 0", Reason::Range),
    (
        Role::Firmware,
        "launch_update 1 x 256 0 0 0 0",
        Reason::Number,
    ),
    (
        Role::Firmware,
        "launch_update 1 2 256 x 0 0 0",
        Reason::Range,
    ),
    (
        Role::Firmware,
        "launch_update 1 2 255 2 x 0 0",
        Reason::Range,
    ),
    (
        Role::Firmware,
        "launch_update 1 2 255 yes 16 0 0",
        Reason::Number,
    ),
    (
        Role::Firmware,
        "launch_update 1 2 1 1 16 x 0",
        Reason::Range,
    ),
    (
        Role::Firmware,
        "launch_update 1 2 1 1 x 16 0",
        Reason::Number,
    ),
    (
        Role::Firmware,
        "launch_update 1 2 1 1 0 16 x",
        Reason::Range,
    ),
    (
        Role::Firmware,
        "launch_update 1 2 1 1 0 x 16",
        Reason::Number,
    ),
    (
        Role::Firmware,
        "launch_update 1 2 1 1 0 0 16 again 0",
        Reason::Range,
    ),
    (
        Role::Firmware,
        "launch_update 1 2 1 1 0 0 x again 0",
        Reason::Number,
    ),
    (
        Role::Firmware,
        "launch_update 1 2 1 1 0 0 0 again 0",
        Reason::Form,
    ),
    (Role::Firmware, "launch_finish", Reason::Form),
    (Role::Firmware, "launch_finish 0", Reason::Range),
    (Role::Firmware, "launch_finish 1 retry 0", Reason::Range),
    (Role::Firmware, "md_init", Reason::Form),
    (Role::Firmware, "md_init x again 0", Reason::Number),
    (Role::Firmware, "md_init 1 again 0", Reason::Form),
    (Role::Firmware, "md_init 1 2", Reason::Form),
    (Role::Firmware, "page_move 1 2", Reason::Form),
    (Role::Firmware, "page_move 9 x y", Reason::Range),
    (Role::Firmware, "page_move 1 x y", Reason::Number),
    (Role::Firmware, "page_move 1 2 y again 0", Reason::Number),
    (Role::Firmware, "page_move 1 2 3 again 0", Reason::Form),
    (Role::Firmware, "page_reclaim", Reason::Form),
    (Role::Firmware, "page_reclaim x again 0", Reason::Number),
    (Role::Firmware, "page_reclaim 1 retry 256", Reason::Range),
    (Role::Firmware, "Page_reclaim 1", Reason::Form),
    (Role::Firmware, "skip 1 if ok retry 1", Reason::Form),
    (Role::Host, "gctx_create 1 2", Reason::Form),
    (Role::Host, "page_reclaim 1 retry 1", Reason::Form),
    (CPU, "launch_start 1", Reason::Form),
    (CPU, "md_init 5", Reason::Form),
    (Role::Firmware, "launch start 1", Reason::Form),
    (Role::Firmware, "", Reason::Form),
];

fn launch_update(guest: u8, frame: u64, page_type: u8, imi: bool, perms: [u8; 3]) -> Command {
    Command::LaunchUpdate {
        guest,
        frame,
        page_type,
        imi,
        perms,
    }
}

// A line of a command.
fn told(command: Command, retries: u8) -> Line {
    retried(Item::Firmware(command), retries)
}

#[test]
fn lines_of_commands(rt: HostRuntime) {
    for (role, line, reason) in REFUSED_COMMANDS {
        assert!(rt; is_refused_item(&role, line, reason), "{line}");
    }
    for (line, command, retries) in [
        (
            "gctx_create 1 0xffffffffffffffff",
            Command::GctxCreate {
                guest: 1,
                frame: u64::MAX,
            },
            0,
        ),
        (
            "gctx_create 0x8 2 retry 255",
            Command::GctxCreate { guest: 8, frame: 2 },
            255,
        ),
        ("activate 2 0", Command::Activate { guest: 2, asid: 0 }, 0),
        (
            "activate 2 1023 retry 1",
            Command::Activate {
                guest: 2,
                asid: 1023,
            },
            1,
        ),
        ("launch_start 8", Command::LaunchStart { guest: 8 }, 0),
        (
            "launch_start 1 retry 2",
            Command::LaunchStart { guest: 1 },
            2,
        ),
        (
            "launch_update 3 7 255 1 1 2 15",
            launch_update(3, 7, 255, true, [1, 2, 15]),
            0,
        ),
        (
            "launch_update 3 18446744073709551615 0 0 0xf 0 9 retry 0x10",
            launch_update(3, u64::MAX, 0, false, [15, 0, 9]),
            16,
        ),
        ("launch_finish 4", Command::LaunchFinish { guest: 4 }, 0),
        (
            "launch_finish 4 retry 3",
            Command::LaunchFinish { guest: 4 },
            3,
        ),
        ("md_init 512", Command::MdInit { frame: 512 }, 0),
        ("md_init 512 retry 4", Command::MdInit { frame: 512 }, 4),
        (
            "page_move 5 6 0x700",
            Command::PageMove {
                guest: 5,
                source: 6,
                target: 0x700,
            },
            0,
        ),
        (
            "page_move 5 6 6 retry 5",
            Command::PageMove {
                guest: 5,
                source: 6,
                target: 6,
            },
            5,
        ),
        ("page_reclaim 0", Command::Reclaim { frame: 0 }, 0),
        ("page_reclaim 9 retry 6", Command::Reclaim { frame: 9 }, 6),
    ] {
        assert!(rt;
            is_line(&Role::Firmware, line, told(command, retries)),
            "{line}"
        );
    }
}

// Texts about guests that are not opened, and about firmware actors, that are refused.
const REFUSED_ACTORS: [(&str, u32, Reason); 9] = [
    ("snp 1\nregions 1\nactor 1 firmware\n", 3, Reason::Form),
    ("snp 1\nregions 1\nactor 2 fw\n", 3, Reason::Range),
    ("snp 1\nregions 1\nactor one fw\n", 3, Reason::Number),
    ("snp 1\nregions 1\nactor 2 firmware\n", 3, Reason::Range),
    ("snp 1\nregions 1\nactor 1 fw\nload 0\n", 4, Reason::Form),
    (
        "snp 1\nregions 1\nactor 1 fw\nactor 2 host\npage_reclaim 0\n",
        5,
        Reason::Form,
    ),
    (
        "snp 1\nregions 1\nguest 1 new asid 5 iv 0 key 00000000000000000000000000000000000000000000000000000000000000ff\npage 0 of 1 at 0 4k valid 0 0 0\n",
        4,
        Reason::Guest,
    ),
    (
        "snp 1\nregions 1\nguest 1 closed asid 5 iv 0 key 00000000000000000000000000000000000000000000000000000000000000ff\n",
        3,
        Reason::Form,
    ),
    (
        "snp 1\nregions 1\nguest 1 new asid 5 iv 0 key 00000000000000000000000000000000000000000000000000000000000000ff\nguest 2 opened asid 5 iv 0 key 00000000000000000000000000000000000000000000000000000000000000ff\n",
        4,
        Reason::Repeat,
    ),
];

// A guest that is launched, beside one that is opened.
const LAUNCHED: &str =
    "snp 1\nregions 1\nguest 1 new asid 5 iv 7 key 00000000000000000000000000000000000000000000000000000000000000ff\nguest 2 opened asid 6 iv 7 key 00000000000000000000000000000000000000000000000000000000000000ff\npage 0 of 2 at 0 4k valid 0 0 0\nactor 1 cpu 1 vmpl 0 npt 9 flat\nactor 2 fw\nlaunch_start 7 retry 9\nskip 1 if bad\norder 2\nend\n";

fn is_launched(scenario: &Scenario) -> bool {
    let items = [
        told(Command::LaunchStart { guest: 7 }, 9),
        once(skip(1, SkipTest::Bad)),
    ];
    match (scenario.guests.as_slice(), scenario.actors.as_slice()) {
        ([first, second], [cpu, firmware]) => {
            !first.opened
                && first.asid == 5
                && second.opened
                && cpu.script.is_empty()
                && firmware.role == Role::Firmware
                && firmware.script.as_slice() == items.as_slice()
        }
        _ => false,
    }
}

#[test]
fn texts_with_firmware(rt: HostRuntime) {
    for (text, line, reason) in REFUSED_ACTORS {
        assert!(rt; is_refused(rt.alloc(), text, line, reason), "{text}");
    }
    match read_scenario(rt.alloc(), LAUNCHED.as_bytes()) {
        Ok(scenario) => assert!(rt; is_launched(&scenario), "{scenario:?}"),
        Err(ScenarioFault::Refused { line, reason }) => assert!(rt; false, "{line} {reason:?}"),
        Err(_) => assert!(rt; false, "no refusal"),
    }
}
