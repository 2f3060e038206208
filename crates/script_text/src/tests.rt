use crate::{read_item, write_item};
use snp_model::{Command, Item, Line, Op, PageSize, Paging, Role, SkipTest, Update};

const CPU: Role = Role::Cpu {
    guest: 1,
    vmpl: 0,
    npt: 0,
    paging: Paging::Flat,
};

// Items of each role with their retries and their lines, in a memory of 512 frames.
const LINES: [(Role, Item, u8, &str); 20] = [
    (
        CPU,
        Item::Access {
            address: 0xffff_ffff_ffff_fff8,
            op: Op::Load,
        },
        0,
        "load 18446744073709551608",
    ),
    (
        CPU,
        Item::Access {
            address: 0,
            op: Op::Compare {
                expected: 1,
                next: 2,
            },
        },
        0,
        "cas 0 1 2",
    ),
    (
        CPU,
        Item::Pvalidate {
            address: 4096,
            size: PageSize::Small,
            validate: true,
        },
        255,
        "pvalidate 4096 4k 1 retry 255",
    ),
    (
        CPU,
        Item::Rmpadjust {
            address: 2_097_152,
            size: PageSize::Large,
            target: 255,
            mask: 15,
            vmsa: false,
        },
        0,
        "rmpadjust 2097152 2m 255 15 0",
    ),
    (
        Role::Host,
        Item::Access {
            address: 2_097_144,
            op: Op::Store(16),
        },
        0,
        "store 2097144 16",
    ),
    (
        Role::Host,
        Item::Rmpupdate(Update {
            frame: 3,
            size: PageSize::Small,
            assigned: true,
            asid: 1023,
            gpn: 0xf_ffff_ffff,
            immutable: false,
        }),
        1,
        "rmpupdate 3 4k 1 1023 68719476735 0 retry 1",
    ),
    (Role::Host, Item::Psmash { frame: 512 }, 0, "psmash 512"),
    (
        Role::Firmware,
        Item::Firmware(Command::GctxCreate { guest: 8, frame: 7 }),
        2,
        "gctx_create 8 7 retry 2",
    ),
    (
        Role::Firmware,
        Item::Firmware(Command::LaunchUpdate {
            guest: 1,
            frame: 9,
            page_type: 3,
            imi: true,
            perms: [1, 2, 15],
        }),
        0,
        "launch_update 1 9 3 1 1 2 15",
    ),
    (
        Role::Firmware,
        Item::Firmware(Command::PageMove {
            guest: 1,
            source: 5,
            target: 6,
        }),
        0,
        "page_move 1 5 6",
    ),
    (
        Role::Firmware,
        Item::Firmware(Command::Reclaim { frame: 0 }),
        10,
        "page_reclaim 0 retry 10",
    ),
    (
        Role::Firmware,
        Item::Firmware(Command::SwapOut {
            guest: 1,
            source: 5,
            target: 6,
            metadata: 7,
            entry: 63,
        }),
        3,
        "swap_out 1 5 6 7 63 retry 3",
    ),
    (
        Role::Firmware,
        Item::Firmware(Command::SwapIn {
            guest: 2,
            source: 6,
            target: 5,
            metadata: 18_446_744_073_709_551_615,
            entry: 0,
        }),
        0,
        "swap_in 2 6 5 18446744073709551615 0",
    ),
    (
        Role::Firmware,
        Item::Firmware(Command::MdOut {
            guest: 8,
            source: 7,
            target: 9,
            metadata: 11,
            entry: 1,
        }),
        0,
        "md_out 8 7 9 11 1",
    ),
    (
        Role::Firmware,
        Item::Firmware(Command::MdIn {
            guest: 8,
            source: 9,
            target: 7,
            metadata: 11,
            entry: 62,
        }),
        255,
        "md_in 8 9 7 11 62 retry 255",
    ),
    (
        Role::Firmware,
        Item::Firmware(Command::MdRootOut {
            guest: 3,
            source: 11,
            target: 12,
        }),
        0,
        "md_root_out 3 11 12",
    ),
    (
        Role::Firmware,
        Item::Firmware(Command::MdRootIn {
            guest: 3,
            source: 12,
            target: 511,
        }),
        1,
        "md_root_in 3 12 511 retry 1",
    ),
    (
        Role::Firmware,
        Item::Skip {
            count: 8192,
            test: SkipTest::Good,
        },
        0,
        "skip 8192 if ok",
    ),
    (
        CPU,
        Item::Skip {
            count: 1,
            test: SkipTest::Value(255),
        },
        0,
        "skip 1 if value 255",
    ),
    (
        Role::Host,
        Item::Skip {
            count: 2,
            test: SkipTest::Bad,
        },
        0,
        "skip 2 if bad",
    ),
];

#[test]
fn lines_both_ways(rt: HostRuntime) {
    for (role, item, retries, text) in LINES {
        let line = Line { item, retries };
        let mut out = [0; 256];
        let end = write_item(&role, &line, &mut out);
        assert!(rt; &out[..end] == text.as_bytes(), "{text}");
        assert!(rt;
            read_item(&role, text.as_bytes(), 512) == Ok(line),
            "{text}"
        );
    }
}
