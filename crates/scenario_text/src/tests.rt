use crate::item_tests::{CPU, FREEING, access, compare, once, pvalidate, retried, rmpadjust, skip};
use crate::{ScenarioFault, read_scenario};
use snp_model::{
    GuestSpec, Item, Op, PageSize, PageSpec, Paging, Quantity, Reason, Role, Scenario, SkipTest,
    Turn, WordSpec,
};
use std::alloc::Global;
use std::test::Fail;

// Texts that are refused, with the line and the reason that the rules of the format give.
const REFUSED: [(&str, u32, Reason); 52] = [
    ("", 1, Reason::End),
    ("snp 1\nregions 1\n", 3, Reason::End),
    ("snp 1\nregions 1\nend", 3, Reason::Cut),
    ("# no line feed", 1, Reason::Cut),
    ("\r\n", 1, Reason::Form),
    ("snp 3\n", 1, Reason::Form),
    ("snp 0x1\n", 1, Reason::Form),
    ("snp 1\nend\n", 2, Reason::Form),
    ("snp 1\nregions \n", 2, Reason::Number),
    ("snp 1\nregions 01\n", 2, Reason::Number),
    ("snp 1\nregions 0xA\n", 2, Reason::Number),
    ("snp 1\nregions 18446744073709551616\n", 2, Reason::Number),
    ("snp 1\nregions 0x00000000000000001\n", 2, Reason::Number),
    ("snp 1\nregions 0\n", 2, Reason::Range),
    (
        "snp 1\n\n# a comment\nregions 1\nregions 1\n",
        5,
        Reason::Form,
    ),
    (
        "snp 1\nregions 1\nguest 2 opened asid 1 iv 0 key 00000000000000000000000000000000000000000000000000000000000000ff\n",
        3,
        Reason::Range,
    ),
    (
        "snp 1\nregions 1\nguest 1 opened asid 1 iv 0 key 00000000000000000000000000000000000000000000000000000000000000FF\n",
        3,
        Reason::Form,
    ),
    (
        "snp 1\nregions 1\nguest 1 opened asid 5 iv 0 key 00000000000000000000000000000000000000000000000000000000000000ff\nguest 2 opened asid 5 iv 0 key 00000000000000000000000000000000000000000000000000000000000000ff\n",
        4,
        Reason::Repeat,
    ),
    (
        "snp 1\nregions 1\npage 0 of 1 at 0 4k valid 0 0 0\n",
        3,
        Reason::Guest,
    ),
    (
        "snp 1\nregions 1\nguest 1 opened asid 5 iv 0 key 00000000000000000000000000000000000000000000000000000000000000ff\npage 512 of 9 at 0 4k valid 0 0 0\n",
        4,
        Reason::Range,
    ),
    (
        "snp 1\nregions 1\nguest 1 opened asid 5 iv 0 key 00000000000000000000000000000000000000000000000000000000000000ff\npage 0 of 1 at 0 4k valid 0 0 16\n",
        4,
        Reason::Range,
    ),
    (
        "snp 1\nregions 1\nguest 1 opened asid 5 iv 0 key 00000000000000000000000000000000000000000000000000000000000000ff\npage 0 of 1 at 0 4k valid 0 0 0\npage 0 of 1 at 1 4k valid 0 0 0\n",
        5,
        Reason::Repeat,
    ),
    (
        "snp 1\nregions 1\nguest 1 opened asid 5 iv 0 key 00000000000000000000000000000000000000000000000000000000000000ff\npage 0 of 1 at 0 4k valid 0 0 0\npage 1 of 1 at 0 4k valid 0 0 0\n",
        5,
        Reason::Repeat,
    ),
    (
        "snp 1\nregions 1\nguest 1 opened asid 5 iv 0 key 00000000000000000000000000000000000000000000000000000000000000ff\nword 0 0 0\npage 0 of 1 at 0 4k valid 0 0 0\n",
        5,
        Reason::Form,
    ),
    ("snp 1\nregions 1\nword 0 512 0\n", 3, Reason::Range),
    (
        "snp 1\nregions 1\nactor 1 cpu 0 vmpl 0 npt 0 flat\n",
        3,
        Reason::Guest,
    ),
    (
        "snp 1\nregions 1\nguest 1 opened asid 5 iv 0 key 00000000000000000000000000000000000000000000000000000000000000ff\nactor 1 cpu 1 vmpl 0 npt 0 gcr3 0x\n",
        4,
        Reason::Number,
    ),
    (
        "snp 1\nregions 1\nguest 1 opened asid 5 iv 0 key 00000000000000000000000000000000000000000000000000000000000000ff\nactor 1 cpu 1 vmpl 0 npt 0 gcr3 0x1000000000\n",
        4,
        Reason::Range,
    ),
    (
        "snp 1\nregions 1\nguest 1 opened asid 5 iv 0 key 00000000000000000000000000000000000000000000000000000000000000ff\nactor 1 cpu 1 vmpl 0 npt 0 la57 1\n",
        4,
        Reason::Form,
    ),
    (
        "snp 1\nregions 1\nguest 1 opened asid 5 iv 0 key 00000000000000000000000000000000000000000000000000000000000000ff\nactor 1 cpu 1 vmpl 0 npt 0 flat 1\n",
        4,
        Reason::Form,
    ),
    (
        "snp 1\nregions 1\nguest 1 opened asid 5 iv 0 key 00000000000000000000000000000000000000000000000000000000000000ff\nactor 1 cpu 1 vmpl 0 npt 0 gcr3\n",
        4,
        Reason::Form,
    ),
    (
        "snp 1\nregions 1\nguest 1 opened asid 5 iv 0 key 00000000000000000000000000000000000000000000000000000000000000ff\nactor 1 cpu 1 vmpl 0 npt 0 gcr3 1 2\n",
        4,
        Reason::Form,
    ),
    (
        "snp 1\nregions 1\nguest 1 opened asid 5 iv 0 key 00000000000000000000000000000000000000000000000000000000000000ff\nactor 1 cpu 1 vmpl 0 npt 512 gcr3 one\n",
        4,
        Reason::Range,
    ),
    (
        "snp 1\nregions 1\nguest 1 opened asid 5 iv 0 key 00000000000000000000000000000000000000000000000000000000000000ff\nactor 1 cpu 1 vmpl 4 npt 0 gcr3 1\n",
        4,
        Reason::Range,
    ),
    (
        "snp 1\nregions 1\nguest 1 opened asid 5 iv 0 key 00000000000000000000000000000000000000000000000000000000000000ff\nactor 1 cpu one vmpl 0 npt 0 gcr3 1\n",
        4,
        Reason::Number,
    ),
    (
        "snp 1\nregions 1\nguest 1 opened asid 5 iv 0 key 00000000000000000000000000000000000000000000000000000000000000ff\nactor 2 cpu 1 vmpl 0 npt 0 gcr3 1\n",
        4,
        Reason::Range,
    ),
    (
        "snp 1\nregions 1\nguest 1 opened asid 5 iv 0 key 00000000000000000000000000000000000000000000000000000000000000ff\nactor 1 cpu 2 vmpl 0 npt 0 gcr3 0xfffffffff\n",
        4,
        Reason::Guest,
    ),
    (
        "snp 1\nregions 1\nguest 1 opened asid 5 iv 0 key 00000000000000000000000000000000000000000000000000000000000000ff\nactor 1 cpu 2 vmpl 0 npt 0 gcr3 0x1000000000\n",
        4,
        Reason::Range,
    ),
    ("snp 1\nregions 1\nstore 0 1\n", 3, Reason::Form),
    (
        "snp 1\nregions 1\nactor 1 host\nstore 4 1\n",
        4,
        Reason::Align,
    ),
    (
        "snp 1\nregions 1\nactor 1 host\nstore 0x200004 1\n",
        4,
        Reason::Range,
    ),
    (
        "snp 1\nregions 2\nactor 1 host\nload 0x3ffff8\nload 0x400000\n",
        5,
        Reason::Range,
    ),
    (
        "snp 1\nregions 1\nactor 1 host\nskip 1 if ok\nskip 0 if ok\n",
        5,
        Reason::Range,
    ),
    ("snp 1\nregions 1\nskip 1 if ok\n", 3, Reason::Form),
    (
        "snp 1\nregions 1\nguest 1 opened asid 5 iv 0 key 00000000000000000000000000000000000000000000000000000000000000ff\nactor 1 cpu 1 vmpl 0 npt 0 flat\nload 0x10 retry 1\n",
        5,
        Reason::Form,
    ),
    (
        "snp 1\nregions 1\norder 1 1 1 1 1 1 1 1 1 1 1 1 1 1 1 1 1\n",
        3,
        Reason::Form,
    ),
    ("snp 1\nregions 1\norder 1*2*3\n", 3, Reason::Number),
    ("snp 1\nregions 1\norder 0x1\n", 3, Reason::Number),
    ("snp 1\nregions 1\norder 4294967296\n", 3, Reason::Range),
    ("snp 1\nregions 1\norder 1*0\n", 3, Reason::Range),
    ("snp 1\nregions 1\nend\n\n", 4, Reason::After),
    ("snp 1\nregions 1\nend\n# a comment", 4, Reason::Cut),
];

// The same of texts with pages of 2 MB.
const REFUSED_LARGE_PAGES: [(&str, u32, Reason); 15] = [
    (
        "snp 1\nregions 2\nguest 1 opened asid 5 iv 0 key 00000000000000000000000000000000000000000000000000000000000000ff\npage 1 of 1 at 0 2m valid 0 0 0\n",
        4,
        Reason::Align,
    ),
    (
        "snp 1\nregions 2\nguest 1 opened asid 5 iv 0 key 00000000000000000000000000000000000000000000000000000000000000ff\npage 1 to 1 at 0 2m valid 0 0 0\n",
        4,
        Reason::Align,
    ),
    (
        "snp 1\nregions 2\nguest 1 opened asid 5 iv 0 key 00000000000000000000000000000000000000000000000000000000000000ff\npage 1025 of 1 at 0 2m valid 0 0 0\n",
        4,
        Reason::Range,
    ),
    (
        "snp 1\nregions 2\nguest 1 opened asid 5 iv 0 key 00000000000000000000000000000000000000000000000000000000000000ff\npage 512 of 1 at 1 2m valid 0 0 0\n",
        4,
        Reason::Align,
    ),
    (
        "snp 1\nregions 2\nguest 1 opened asid 5 iv 0 key 00000000000000000000000000000000000000000000000000000000000000ff\npage 512 of 1 at 511 2m true 0 0 0\n",
        4,
        Reason::Align,
    ),
    (
        "snp 1\nregions 2\nguest 1 opened asid 5 iv 0 key 00000000000000000000000000000000000000000000000000000000000000ff\npage 512 to 1 at 1 2m valid 0 0 0\n",
        4,
        Reason::Form,
    ),
    (
        "snp 1\nregions 2\nguest 1 opened asid 5 iv 0 key 00000000000000000000000000000000000000000000000000000000000000ff\npage 512 of 1 at 0x1000000001 2m valid 0 0 0\n",
        4,
        Reason::Range,
    ),
    (
        "snp 1\nregions 2\nguest 1 opened asid 5 iv 0 key 00000000000000000000000000000000000000000000000000000000000000ff\npage 1 of 1 at 1 2M valid 0 0 0\n",
        4,
        Reason::Form,
    ),
    (
        "snp 1\nregions 2\nguest 1 opened asid 5 iv 0 key 00000000000000000000000000000000000000000000000000000000000000ff\npage 1 of one at 1 1g valid 0 0 0\n",
        4,
        Reason::Number,
    ),
    (
        "snp 1\nregions 2\nguest 1 opened asid 5 iv 0 key 00000000000000000000000000000000000000000000000000000000000000ff\npage 512 of 2 at 512 2m valid 0 0 0\n",
        4,
        Reason::Guest,
    ),
    (
        "snp 1\nregions 2\nguest 1 opened asid 5 iv 0 key 00000000000000000000000000000000000000000000000000000000000000ff\npage 0 of 1 at 512 2m valid 0 0 0\npage 511 of 1 at 0 4k valid 0 0 0\n",
        5,
        Reason::Repeat,
    ),
    (
        "snp 1\nregions 2\nguest 1 opened asid 5 iv 0 key 00000000000000000000000000000000000000000000000000000000000000ff\npage 511 of 1 at 0 4k valid 0 0 0\npage 0 of 1 at 512 2m valid 0 0 0\n",
        5,
        Reason::Repeat,
    ),
    (
        "snp 1\nregions 2\nguest 1 opened asid 5 iv 0 key 00000000000000000000000000000000000000000000000000000000000000ff\npage 0 of 1 at 512 2m valid 0 0 0\npage 512 of 1 at 1023 4k valid 0 0 0\n",
        5,
        Reason::Repeat,
    ),
    (
        "snp 1\nregions 2\nguest 1 opened asid 5 iv 0 key 00000000000000000000000000000000000000000000000000000000000000ff\npage 512 of 1 at 1023 4k valid 0 0 0\npage 0 of 1 at 512 2m valid 0 0 0\n",
        5,
        Reason::Repeat,
    ),
    (
        "snp 1\nregions 2\nguest 1 opened asid 5 iv 0 key 00000000000000000000000000000000000000000000000000000000000000ff\npage 0 of 1 at 512 2m valid 0 0 0\npage 512 of 1 at 512 2m valid 0 0 0\n",
        5,
        Reason::Repeat,
    ),
];

// Texts that pass a limit, with its count.
const LIMITED: [(&str, Quantity, u64); 5] = [
    ("snp 1\nregions 17\n", Quantity::Regions, 17),
    (
        "snp 1\nregions 1\norder 1*262144 2\n",
        Quantity::Order,
        262145,
    ),
    (
        "snp 1\nregions 1\nguest 1 opened asid 1 iv 0 key 00000000000000000000000000000000000000000000000000000000000000ff\nguest 2 opened asid 2 iv 0 key 00000000000000000000000000000000000000000000000000000000000000ff\nguest 3 opened asid 3 iv 0 key 00000000000000000000000000000000000000000000000000000000000000ff\nguest 4 opened asid 4 iv 0 key 00000000000000000000000000000000000000000000000000000000000000ff\nguest 5 opened asid 5 iv 0 key 00000000000000000000000000000000000000000000000000000000000000ff\nguest 6 opened asid 6 iv 0 key 00000000000000000000000000000000000000000000000000000000000000ff\nguest 7 opened asid 7 iv 0 key 00000000000000000000000000000000000000000000000000000000000000ff\nguest 8 opened asid 8 iv 0 key 00000000000000000000000000000000000000000000000000000000000000ff\nguest 9 opened asid 9 iv 0 key 00000000000000000000000000000000000000000000000000000000000000ff\n",
        Quantity::Guests,
        9,
    ),
    (
        "snp 1\nregions 1\nactor 1 host\nactor 2 host\nactor 3 host\nactor 4 host\nactor 5 host\nactor 6 host\nactor 7 host\nactor 8 host\nactor 9 host\nactor 10 host\nactor 11 host\nactor 12 host\nactor 13 host\nactor 14 host\nactor 15 host\nactor 16 host\nactor 17 host\nactor 18 host\nactor 19 host\nactor 20 host\nactor 21 host\nactor 22 host\nactor 23 host\nactor 24 host\nactor 25 host\nactor 26 host\nactor 27 host\nactor 28 host\nactor 29 host\nactor 30 host\nactor 31 host\nactor 32 host\nactor 33 host\n",
        Quantity::Actors,
        33,
    ),
    (
        "snp 1\nregions 1\nactor 1 host\npsmash 0 retry 255\npsmash 0 retry 255\npsmash 0 retry 255\npsmash 0 retry 255\npsmash 0 retry 255\npsmash 0 retry 255\npsmash 0 retry 255\npsmash 0 retry 255\npsmash 0 retry 255\npsmash 0 retry 255\npsmash 0 retry 255\npsmash 0 retry 255\npsmash 0 retry 255\npsmash 0 retry 255\npsmash 0 retry 255\npsmash 0 retry 255\npsmash 0 retry 255\npsmash 0 retry 255\npsmash 0 retry 255\npsmash 0 retry 255\npsmash 0 retry 255\npsmash 0 retry 255\npsmash 0 retry 255\npsmash 0 retry 255\npsmash 0 retry 255\npsmash 0 retry 255\npsmash 0 retry 255\npsmash 0 retry 255\npsmash 0 retry 255\npsmash 0 retry 255\npsmash 0 retry 255\npsmash 0 retry 255\nload 0\n",
        Quantity::Attempts,
        8193,
    ),
];

pub(crate) fn is_refused(alloc: Global, text: &str, at: u32, why: Reason) -> bool {
    match read_scenario(alloc, text.as_bytes()) {
        Err(ScenarioFault::Refused { line, reason }) => line == at && reason == why,
        _ => false,
    }
}

fn is_limited(alloc: Global, text: &str, of: Quantity, most: u64) -> bool {
    match read_scenario(alloc, text.as_bytes()) {
        Err(ScenarioFault::Limit { quantity, count }) => quantity == of && count == most,
        _ => false,
    }
}

// A text with a line of each form.
pub(crate) const WHOLE: &str =
    "snp 2\nregions 2\nguest 1 opened asid 5 iv 0 key 00000000000000000000000000000000000000000000000000000000000000ff\npage 0x3 of 1 at 7 4k invalid 1 2 0xf\npage 512 of 1 at 0xffffffe00 2m valid 4 5 6\npage 511 of 1 at 0xffffffdff 4k valid 0 0 0\nword 3 511 0xffffffffffffffff\n# actors\nactor 1 cpu 1 vmpl 3 npt 9 flat\nload 8\nstore 0xfffffffffffffff8 2\nswap 0x10 5\ncas 0x10 5 6\nxor 0x10 3\nskip 1 if ok\npvalidate 0x200000 2m 1 retry 3\nrmpadjust 0x200000 2m 3 0xf 0\nactor 2 host\nstore 0x1ffff8 0\nload 0x1ffff8\nrmpupdate 3 4k 0 0 0 0\npsmash 512 retry 2\nskip 2 if bad\nskip 8192 if value 7\nactor 3 cpu 1 vmpl 1 npt 0x1ff gcr3 0xfffffffff\nload 0\nactor 4 cpu 1 vmpl 1 npt 511 la57 1\norder 1*2 2\n\norder 7\nend\n";

// A processor whose guest tables begin at the last guest page, in the last frame of a region.
const WITH_TABLES: Role = Role::Cpu {
    guest: 1,
    vmpl: 1,
    npt: 511,
    paging: Paging::Four(0xf_ffff_ffff),
};

// One whose guest tables have five levels, from the guest's page 1 on.
const WITH_FIVE_LEVELS: Role = Role::Cpu {
    guest: 1,
    vmpl: 1,
    npt: 511,
    paging: Paging::Five(1),
};

pub(crate) fn is_whole(scenario: &Scenario) -> bool {
    let mut key = [0; 32];
    key[31] = 0xff;
    let guest = GuestSpec {
        opened: true,
        asid: 5,
        iv: 0,
        key,
    };
    let word = WordSpec {
        frame: 3,
        index: 511,
        value: u64::MAX,
    };
    let turns = [
        Turn { actor: 1, count: 2 },
        Turn { actor: 2, count: 1 },
        Turn { actor: 7, count: 1 },
    ];
    scenario.version == 2
        && scenario.regions == 2
        && scenario.guests.as_slice() == [guest].as_slice()
        && are_pages(scenario)
        && scenario.words.as_slice() == [word].as_slice()
        && scenario.order.as_slice() == turns.as_slice()
        && are_actors(scenario)
}

// A page of 2 MB at the end of memory and of its guest's pages, between two others.
fn are_pages(scenario: &Scenario) -> bool {
    let small = PageSpec {
        frame: 3,
        guest: 1,
        gpn: 7,
        size: PageSize::Small,
        valid: false,
        perms: [1, 2, 15],
    };
    let large = PageSpec {
        frame: 512,
        guest: 1,
        gpn: 0xf_ffff_fe00,
        size: PageSize::Large,
        valid: true,
        perms: [4, 5, 6],
    };
    let beside = PageSpec {
        frame: 511,
        guest: 1,
        gpn: 0xf_ffff_fdff,
        size: PageSize::Small,
        valid: true,
        perms: [0, 0, 0],
    };
    scenario.pages.as_slice() == [small, large, beside].as_slice()
}

fn are_actors(scenario: &Scenario) -> bool {
    let cpu_items = [
        once(access(8, Op::Load)),
        once(access(u64::MAX - 7, Op::Store(2))),
        once(access(16, Op::Swap(5))),
        once(compare(16, 5, 6)),
        once(access(16, Op::Xor(3))),
        once(skip(1, SkipTest::Good)),
        retried(pvalidate(0x20_0000, PageSize::Large, true), 3),
        once(rmpadjust(0x20_0000, PageSize::Large, 3, 15, false)),
    ];
    let host_items = [
        once(access(0x1f_fff8, Op::Store(0))),
        once(access(0x1f_fff8, Op::Load)),
        once(Item::Rmpupdate(FREEING)),
        retried(Item::Psmash { frame: 512 }, 2),
        once(skip(2, SkipTest::Bad)),
        once(skip(8192, SkipTest::Value(7))),
    ];
    match scenario.actors.as_slice() {
        [first, second, third, fourth] => {
            first.role == CPU
                && first.script.as_slice() == cpu_items.as_slice()
                && second.role == Role::Host
                && second.script.as_slice() == host_items.as_slice()
                && third.role == WITH_TABLES
                && third.script.as_slice() == [once(access(0, Op::Load))].as_slice()
                && fourth.role == WITH_FIVE_LEVELS
                && fourth.script.is_empty()
        }
        _ => false,
    }
}

#[test]
fn large_pages(rt: HostRuntime) {
    for (text, line, reason) in REFUSED_LARGE_PAGES {
        assert!(rt; is_refused(rt.alloc(), text, line, reason), "{text}");
    }
}

#[test]
fn texts_and_answers(rt: HostRuntime) -> Result<(), Fail> {
    for (text, line, reason) in REFUSED {
        assert!(rt; is_refused(rt.alloc(), text, line, reason), "{text}");
    }
    for (text, quantity, count) in LIMITED {
        assert!(rt; is_limited(rt.alloc(), text, quantity, count), "{text}");
    }
    let long = vec![in rt.alloc(); b'#'; 4_194_305]?;
    match read_scenario(rt.alloc(), long.as_slice()) {
        Err(ScenarioFault::Limit { quantity, count }) => {
            assert_eq!(rt; quantity, Quantity::Bytes);
            assert_eq!(rt; count, 4_194_305);
        }
        _ => assert!(rt; false, "too long"),
    }
    match read_scenario(rt.alloc(), WHOLE.as_bytes()) {
        Ok(scenario) => assert!(rt; is_whole(&scenario), "{scenario:?}"),
        Err(fault) => assert!(rt; false, "{fault}"),
    }
    Ok(())
}
