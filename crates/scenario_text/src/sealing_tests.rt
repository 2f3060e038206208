use crate::item_tests::{CPU, is_line, is_refused_item, retried};
use snp_model::{Command, Item, Reason, Role};

// Lines of commands that seal or open pages, and that are refused.
const REFUSED: [(Role, &str, Reason); 60] = [
    (Role::Firmware, "swap_out 1 2 3 4", Reason::Form),
    (Role::Firmware, "swap_out 1 2 3 4 5 6", Reason::Form),
    (Role::Firmware, "swap_out 1 2 3 4 5 retry", Reason::Form),
    (Role::Firmware, "swap_out 1 2 3 4 5 retry 1 2", Reason::Form),
    (Role::Firmware, "swap_out 1  2 3 4 5", Reason::Form),
    (Role::Firmware, "swap_out 0 x 3 4 5", Reason::Range),
    (Role::Firmware, "swap_out 9 x 3 4 5", Reason::Range),
    (Role::Firmware, "swap_out g x 3 4 64", Reason::Number),
    (Role::Firmware, "swap_out 1 2 3 4 64", Reason::Range),
    (Role::Firmware, "swap_out 1 2 3 4 0x40", Reason::Range),
    (Role::Firmware, "swap_out 1 2 3 4 063", Reason::Number),
    (Role::Firmware, "swap_out 1 x 3 4 64", Reason::Number),
    (Role::Firmware, "swap_out 1 2 x 4 64", Reason::Number),
    (Role::Firmware, "swap_out 1 2 3 x 64", Reason::Number),
    (
        Role::Firmware,
        "swap_out 1 2 3 18446744073709551616 64",
        Reason::Number,
    ),
    (Role::Firmware, "swap_out 1 2 3 4 64 again 0", Reason::Range),
    (Role::Firmware, "swap_out 1 2 3 4 e again 0", Reason::Number),
    (Role::Firmware, "swap_out 1 2 3 4 63 again 0", Reason::Form),
    (Role::Firmware, "swap_out 1 2 3 4 63 retry 0", Reason::Range),
    (
        Role::Firmware,
        "swap_out 1 2 3 4 63 retry 256",
        Reason::Range,
    ),
    (Role::Firmware, "swap_in 1 2 3 4", Reason::Form),
    (Role::Firmware, "swap_in 1 2 3 4 5 6", Reason::Form),
    (Role::Firmware, "swap_in 0 2 3 4 5", Reason::Range),
    (Role::Firmware, "swap_in 9 2 3 4 5", Reason::Range),
    (Role::Firmware, "swap_in 1 2 3 4 64", Reason::Range),
    (Role::Firmware, "swap_in 1 2 3 x 64", Reason::Number),
    (Role::Firmware, "swap_in 1 2 3 4 5 retry x", Reason::Number),
    (Role::Firmware, "md_out 1 2 3", Reason::Form),
    (Role::Firmware, "md_out 1 2 3 4 5 6", Reason::Form),
    (Role::Firmware, "md_out 1 2 3 retry 1", Reason::Number),
    (Role::Firmware, "md_out 9 2 3 4 5", Reason::Range),
    (Role::Firmware, "md_out 1 2 3 4 64", Reason::Range),
    (Role::Firmware, "md_out 1 2 3 4 5 again 1", Reason::Form),
    (Role::Firmware, "md_in 1 2 3", Reason::Form),
    (Role::Firmware, "md_in 1 2 3 4 5 6", Reason::Form),
    (Role::Firmware, "md_in 1 2 3 retry 1", Reason::Number),
    (Role::Firmware, "md_in 9 2 3 4 5", Reason::Range),
    (Role::Firmware, "md_in 1 2 3 4 64", Reason::Range),
    (Role::Firmware, "md_in 1 2 3 4 5 retry 0", Reason::Range),
    (Role::Firmware, "md_root_out 1 2", Reason::Form),
    (Role::Firmware, "md_root_out 1 2 3 4", Reason::Form),
    (Role::Firmware, "md_root_out 1 2 3 4 5", Reason::Form),
    (Role::Firmware, "md_root_out 9 x 3", Reason::Range),
    (Role::Firmware, "md_root_out 1 2 x", Reason::Number),
    (Role::Firmware, "md_root_out 1 2 3 retry 0", Reason::Range),
    (Role::Firmware, "md_root_in 1 2", Reason::Form),
    (Role::Firmware, "md_root_in 1 2 3 4", Reason::Form),
    (Role::Firmware, "md_root_in 1 2 3 again 1", Reason::Form),
    (Role::Firmware, "md_root_in 0 2 3", Reason::Range),
    (Role::Firmware, "md_root_in 1 x y", Reason::Number),
    (Role::Firmware, "md_root_in 1 2 3 retry 256", Reason::Range),
    (Role::Firmware, "Swap_out 1 2 3 4 5", Reason::Form),
    (Role::Firmware, "swap 1 2 3 4 5", Reason::Form),
    (Role::Firmware, "swap_inn 1 2 3 4 5", Reason::Form),
    (Role::Firmware, "md 1 2 3 4 5", Reason::Form),
    (Role::Firmware, "md_root 1 2 3", Reason::Form),
    (Role::Host, "swap_out 1 2 3 4 5", Reason::Form),
    (Role::Host, "md_root_out 1 2 3", Reason::Form),
    (CPU, "swap_in 1 2 3 4 5", Reason::Form),
    (CPU, "md_in 1 2 3 4 5 retry 1", Reason::Form),
];

const SWAP_OUT: Command = Command::SwapOut {
    guest: 1,
    source: 0,
    target: u64::MAX,
    metadata: u64::MAX,
    entry: 0,
};

const SWAP_IN: Command = Command::SwapIn {
    guest: 8,
    source: 3,
    target: 4,
    metadata: 5,
    entry: 63,
};

const MD_OUT: Command = Command::MdOut {
    guest: 3,
    source: 4,
    target: 5,
    metadata: 6,
    entry: 7,
};

const MD_IN: Command = Command::MdIn {
    guest: 4,
    source: 5,
    target: 6,
    metadata: 7,
    entry: 8,
};

const MD_ROOT_OUT: Command = Command::MdRootOut {
    guest: 8,
    source: 6,
    target: 7,
};

const MD_ROOT_IN: Command = Command::MdRootIn {
    guest: 1,
    source: 8,
    target: 8,
};

#[test]
fn lines_of_sealing_commands(rt: HostRuntime) {
    for (role, line, reason) in REFUSED {
        assert!(rt; is_refused_item(&role, line, reason), "{line}");
    }
    for (line, command, retries) in [
        (
            "swap_out 1 0 0xffffffffffffffff 18446744073709551615 0",
            SWAP_OUT,
            0,
        ),
        (
            "swap_out 1 0 0xffffffffffffffff 18446744073709551615 0 retry 255",
            SWAP_OUT,
            255,
        ),
        ("swap_in 8 3 4 5 63", SWAP_IN, 0),
        ("swap_in 8 3 4 5 0x3f retry 1", SWAP_IN, 1),
        ("md_out 3 4 5 6 7", MD_OUT, 0),
        ("md_out 3 4 5 6 7 retry 2", MD_OUT, 2),
        ("md_in 4 5 6 7 8", MD_IN, 0),
        ("md_in 4 5 6 7 8 retry 0x10", MD_IN, 16),
        ("md_root_out 8 6 7", MD_ROOT_OUT, 0),
        ("md_root_out 8 6 7 retry 3", MD_ROOT_OUT, 3),
        ("md_root_in 1 8 8", MD_ROOT_IN, 0),
        ("md_root_in 0x1 8 0x8 retry 4", MD_ROOT_IN, 4),
    ] {
        assert!(rt;
            is_line(
                &Role::Firmware,
                line,
                retried(Item::Firmware(command), retries)
            ),
            "{line}"
        );
    }
}
