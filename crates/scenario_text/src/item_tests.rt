use script_text::read_item;
use snp_model::{Item, Line, Op, PageSize, Paging, Reason, Role, SkipTest, Update};

pub(crate) fn access(address: u64, op: Op) -> Item {
    Item::Access { address, op }
}

pub(crate) fn compare(address: u64, expected: u64, next: u64) -> Item {
    access(address, Op::Compare { expected, next })
}

pub(crate) fn skip(count: u32, test: SkipTest) -> Item {
    Item::Skip { count, test }
}

pub(crate) fn once(item: Item) -> Line {
    Line { item, retries: 0 }
}

pub(crate) const CPU: Role = Role::Cpu {
    guest: 1,
    vmpl: 3,
    npt: 9,
    paging: Paging::Flat,
};

// Lines of items that are refused in a memory of one region, whose last address is 0x1fffff.
const REFUSED_ITEMS: [(Role, &str, Reason); 60] = [
    (CPU, "load", Reason::Form),
    (CPU, "load ", Reason::Number),
    (CPU, "load 0xc", Reason::Align),
    (CPU, "load 0x10 5", Reason::Form),
    (CPU, "swap 0x10", Reason::Form),
    (CPU, "swap 0x10 5 6", Reason::Form),
    (CPU, "swap ten 5", Reason::Number),
    (CPU, "swap 0x11 five", Reason::Align),
    (CPU, "swap 0x10 five", Reason::Number),
    (CPU, "cas 0x10 5", Reason::Form),
    (CPU, "cas 0x10 5 6 7", Reason::Form),
    (CPU, "cas 0xA 5 6", Reason::Number),
    (CPU, "cas 0x14 5 6", Reason::Align),
    (CPU, "cas 0x10 05 6", Reason::Number),
    (CPU, "cas 0x10 5 -6", Reason::Number),
    (CPU, "xor 0x10", Reason::Form),
    (CPU, "xor 0x10 3 3", Reason::Form),
    (CPU, "xor  3", Reason::Number),
    (CPU, "xor 4 3", Reason::Align),
    (CPU, "xor 8 18446744073709551616", Reason::Number),
    (CPU, "Swap 0x10 5", Reason::Form),
    (CPU, "cas 0x10 5 6 retry 1", Reason::Form),
    (Role::Host, "load 0x200000", Reason::Range),
    (Role::Host, "load 0x200001", Reason::Range),
    (Role::Host, "load 0x1ffff9", Reason::Align),
    (Role::Host, "load x", Reason::Number),
    (Role::Host, "load", Reason::Form),
    (Role::Host, "swap 0x200000 five", Reason::Range),
    (Role::Host, "swap 4 five", Reason::Align),
    (Role::Host, "swap 8 five", Reason::Number),
    (Role::Host, "swap 8", Reason::Form),
    (Role::Host, "cas 0x200004 5 6", Reason::Range),
    (Role::Host, "cas 1 5 6", Reason::Align),
    (Role::Host, "cas 0 5 0x", Reason::Number),
    (Role::Host, "cas 0 5", Reason::Form),
    (Role::Host, "xor 0xffffffffffffffff 1", Reason::Range),
    (Role::Host, "xor 9 1", Reason::Align),
    (Role::Host, "xor 8 y", Reason::Number),
    (Role::Host, "xor 8", Reason::Form),
    (CPU, "skip 0 if ok", Reason::Range),
    (Role::Host, "skip 8193 if bad", Reason::Range),
    (
        Role::Firmware,
        "skip 18446744073709551615 if ok",
        Reason::Range,
    ),
    (CPU, "skip one if ok", Reason::Number),
    (Role::Host, "skip 01 if bad", Reason::Number),
    (CPU, "skip 0 when ok", Reason::Range),
    (CPU, "skip 1 when ok", Reason::Form),
    (CPU, "skip 1 if good", Reason::Form),
    (CPU, "skip 1 if value", Reason::Form),
    (CPU, "skip 1 if", Reason::Form),
    (CPU, "skip 1 if ok 5", Reason::Form),
    (Role::Host, "skip 0 if value 5", Reason::Range),
    (Role::Host, "skip 8193 if value five", Reason::Range),
    (Role::Firmware, "skip x if value 5", Reason::Number),
    (CPU, "skip 1 when value five", Reason::Form),
    (CPU, "skip 1 if values five", Reason::Form),
    (Role::Host, "skip 1 if value five", Reason::Number),
    (CPU, "skip 1 if value 5 6", Reason::Form),
    (Role::Firmware, "load 0x10", Reason::Form),
    (Role::Firmware, "swap 0x10 5", Reason::Form),
    (Role::Firmware, "skip", Reason::Form),
];

pub(crate) fn is_refused_item(role: &Role, line: &str, why: Reason) -> bool {
    match read_item(role, line.as_bytes(), 512) {
        Err(reason) => reason == why,
        Ok(_) => false,
    }
}

pub(crate) fn is_line(role: &Role, line: &str, expected: Line) -> bool {
    match read_item(role, line.as_bytes(), 512) {
        Ok(read) => read == expected,
        Err(_) => false,
    }
}

fn is_item(role: &Role, line: &str, item: Item) -> bool {
    is_line(role, line, once(item))
}

#[test]
fn lines_of_items(rt: HostRuntime) {
    for (role, line, reason) in REFUSED_ITEMS {
        assert!(rt; is_refused_item(&role, line, reason), "{line}");
    }
    for (role, line, item) in [
        (CPU, "load 8", access(8, Op::Load)),
        (
            CPU,
            "store 0xfffffffffffffff8 2",
            access(u64::MAX - 7, Op::Store(2)),
        ),
        (CPU, "swap 0x10 5", access(16, Op::Swap(5))),
        (CPU, "cas 16 0x5 6", compare(16, 5, 6)),
        (
            CPU,
            "cas 0xfffffffffffffff8 0 0xffffffffffffffff",
            compare(u64::MAX - 7, 0, u64::MAX),
        ),
        (
            CPU,
            "xor 0xfffffffffffffff8 3",
            access(u64::MAX - 7, Op::Xor(3)),
        ),
        (Role::Host, "load 0x1ffff8", access(0x1f_fff8, Op::Load)),
        (Role::Host, "store 0 0", access(0, Op::Store(0))),
        (
            Role::Host,
            "swap 0x1ffff8 7",
            access(0x1f_fff8, Op::Swap(7)),
        ),
        (Role::Host, "cas 8 1 0", compare(8, 1, 0)),
        (
            Role::Host,
            "xor 0x8010 18446744073709551615",
            access(0x8010, Op::Xor(u64::MAX)),
        ),
        (CPU, "skip 1 if ok", skip(1, SkipTest::Good)),
        (CPU, "skip 0x2000 if bad", skip(8192, SkipTest::Bad)),
        (CPU, "skip 8192 if value 0", skip(8192, SkipTest::Value(0))),
        (Role::Host, "skip 8192 if ok", skip(8192, SkipTest::Good)),
        (
            Role::Host,
            "skip 2 if value 0xffffffffffffffff",
            skip(2, SkipTest::Value(u64::MAX)),
        ),
        (Role::Firmware, "skip 3 if bad", skip(3, SkipTest::Bad)),
        (
            Role::Firmware,
            "skip 1 if value 16",
            skip(1, SkipTest::Value(16)),
        ),
    ] {
        assert!(rt; is_item(&role, line, item), "{line}");
    }
}

// Lines of instructions that are refused.
const REFUSED_INSTRUCTIONS: [(Role, &str, Reason); 25] = [
    (Role::Host, "rmpupdate 3 4k 1 5 7", Reason::Form),
    (Role::Host, "rmpupdate 3 4k 1 5 7 0 1", Reason::Form),
    (Role::Host, "rmpupdate 3 4k 1 5 7 0 retry", Reason::Form),
    (Role::Host, "rmpupdate x 1g 1 5 7 0", Reason::Number),
    (Role::Host, "rmpupdate 3 1g 2 5 7 0", Reason::Form),
    (Role::Host, "rmpupdate 3 4k 2 x 7 0", Reason::Range),
    (Role::Host, "rmpupdate 3 4k yes 1024 7 0", Reason::Number),
    (Role::Host, "rmpupdate 3 4k 1 1024 x 0", Reason::Range),
    (
        Role::Host,
        "rmpupdate 3 4k 1 5 0x1000000000 2",
        Reason::Range,
    ),
    (Role::Host, "rmpupdate 3 4k 1 5 7 2 again 0", Reason::Range),
    (Role::Host, "rmpupdate 3 4k 1 5 7 0 again 0", Reason::Form),
    (Role::Host, "rmpupdate 3 4k 1 5 7 0 retry 0", Reason::Range),
    (
        Role::Host,
        "rmpupdate 3 4k 1 5 7 0 retry 256",
        Reason::Range,
    ),
    (
        Role::Host,
        "rmpupdate 3 4k 1 5 7 0 retry one",
        Reason::Number,
    ),
    (Role::Host, "psmash", Reason::Form),
    (Role::Host, "psmash 512 retry", Reason::Form),
    (Role::Host, "psmash 512 retry 1 2", Reason::Form),
    (Role::Host, "psmash x again 0", Reason::Number),
    (Role::Host, "psmash 512 again 0", Reason::Form),
    (Role::Host, "psmash 512 retry 0", Reason::Range),
    (Role::Host, "load 0x10 retry 1", Reason::Form),
    (CPU, "rmpupdate 3 4k 1 5 7 0", Reason::Form),
    (CPU, "psmash 512", Reason::Form),
    (Role::Firmware, "rmpupdate 3 4k 1 5 7 0", Reason::Form),
    (Role::Firmware, "psmash 512 retry 1", Reason::Form),
];

// The greatest of each operand.
const GREATEST: Update = Update {
    frame: u64::MAX,
    size: PageSize::Large,
    assigned: true,
    asid: 1023,
    gpn: 0xf_ffff_ffff,
    immutable: true,
};

// One that frees a frame.
pub(crate) const FREEING: Update = Update {
    frame: 3,
    size: PageSize::Small,
    assigned: false,
    asid: 0,
    gpn: 0,
    immutable: false,
};

// Each of the two flags alone.
const ASSIGNING: Update = Update {
    assigned: true,
    ..FREEING
};

const FIXING: Update = Update {
    immutable: true,
    ..FREEING
};

pub(crate) fn retried(item: Item, retries: u8) -> Line {
    Line { item, retries }
}

#[test]
fn lines_of_instructions(rt: HostRuntime) {
    for (role, line, reason) in REFUSED_INSTRUCTIONS {
        assert!(rt; is_refused_item(&role, line, reason), "{line}");
    }
    for (line, expected) in [
        (
            "rmpupdate 0xffffffffffffffff 2m 1 1023 0xfffffffff 1",
            once(Item::Rmpupdate(GREATEST)),
        ),
        (
            "rmpupdate 18446744073709551615 2m 0x1 0x3ff 68719476735 0x1 retry 255",
            retried(Item::Rmpupdate(GREATEST), 255),
        ),
        ("rmpupdate 3 4k 0 0 0 0", once(Item::Rmpupdate(FREEING))),
        ("rmpupdate 3 4k 1 0 0 0", once(Item::Rmpupdate(ASSIGNING))),
        (
            "rmpupdate 3 4k 0 0 0 1 retry 1",
            retried(Item::Rmpupdate(FIXING), 1),
        ),
        ("psmash 512", once(Item::Psmash { frame: 512 })),
        (
            "psmash 0xffffffffffffffff retry 0x10",
            retried(Item::Psmash { frame: u64::MAX }, 16),
        ),
    ] {
        assert!(rt; is_line(&Role::Host, line, expected), "{line}");
    }
}

// Lines of PVALIDATE and RMPADJUST that are refused.
const REFUSED_VALIDATIONS: [(Role, &str, Reason); 35] = [
    (CPU, "pvalidate 0x1000 4k", Reason::Form),
    (CPU, "pvalidate 0x1000 4k 1 1", Reason::Form),
    (CPU, "pvalidate 0x1000 4k 1 retry", Reason::Form),
    (CPU, "pvalidate 0x1000 4k 1 retry 1 2", Reason::Form),
    (CPU, "Pvalidate 0x1000 4k 1", Reason::Form),
    (CPU, "pvalidate x 1g 2", Reason::Number),
    (CPU, "pvalidate 0x10000000000000000 4k 1", Reason::Number),
    (CPU, "pvalidate 0x1000 1g 2", Reason::Form),
    (CPU, "pvalidate 0x1000 4K 1", Reason::Form),
    (CPU, "pvalidate 0x1000 4k 2 again 0", Reason::Range),
    (CPU, "pvalidate 0x1000 4k yes again 0", Reason::Number),
    (CPU, "pvalidate 0x1000 4k 1 again 0", Reason::Form),
    (CPU, "pvalidate 0x1000 4k 1 retry 0", Reason::Range),
    (CPU, "pvalidate 0x1000 4k 1 retry 256", Reason::Range),
    (CPU, "pvalidate 0x1000 4k 1 retry one", Reason::Number),
    (Role::Host, "pvalidate 0x1000 4k 1", Reason::Form),
    (
        Role::Firmware,
        "pvalidate 0x1000 4k 1 retry 1",
        Reason::Form,
    ),
    (CPU, "rmpadjust 0x1000 4k 1 15", Reason::Form),
    (CPU, "rmpadjust 0x1000 4k 1 15 0 1", Reason::Form),
    (CPU, "rmpadjust 0x1000 4k 1 15 0 retry", Reason::Form),
    (CPU, "rmpadjust 0x1000 4k 1 15 0 retry 1 2", Reason::Form),
    (CPU, "rmpadjust x 1g 256 256 2", Reason::Number),
    (CPU, "rmpadjust 0 1g 256 256 2", Reason::Form),
    (CPU, "rmpadjust 0 2m 256 x 2", Reason::Range),
    (CPU, "rmpadjust 0 2m one 256 2", Reason::Number),
    (CPU, "rmpadjust 0 2m 255 256 x", Reason::Range),
    (CPU, "rmpadjust 0 2m 255 y 2", Reason::Number),
    (CPU, "rmpadjust 0 2m 255 255 2 again 0", Reason::Range),
    (CPU, "rmpadjust 0 2m 255 255 no again 0", Reason::Number),
    (CPU, "rmpadjust 0 2m 255 255 1 again 0", Reason::Form),
    (CPU, "rmpadjust 0 2m 1 15 0 retry 0", Reason::Range),
    (CPU, "rmpadjust 0 2m 1 15 0 retry 256", Reason::Range),
    (CPU, "rmpadjust 0 2m 1 15 0 retry ten", Reason::Number),
    (Role::Host, "rmpadjust 0x1000 4k 1 15 0", Reason::Form),
    (
        Role::Firmware,
        "rmpadjust 0x1000 4k 1 15 0 retry 1",
        Reason::Form,
    ),
];

pub(crate) fn pvalidate(address: u64, size: PageSize, validate: bool) -> Item {
    Item::Pvalidate {
        address,
        size,
        validate,
    }
}

pub(crate) fn rmpadjust(address: u64, size: PageSize, target: u8, mask: u8, vmsa: bool) -> Item {
    Item::Rmpadjust {
        address,
        size,
        target,
        mask,
        vmsa,
    }
}

#[test]
fn lines_of_validations(rt: HostRuntime) {
    for (role, line, reason) in REFUSED_VALIDATIONS {
        assert!(rt; is_refused_item(&role, line, reason), "{line}");
    }
    for (line, expected) in [
        (
            "pvalidate 0x1000 4k 1",
            once(pvalidate(0x1000, PageSize::Small, true)),
        ),
        (
            "pvalidate 0xffffffffffffffff 2m 0x0 retry 255",
            retried(pvalidate(u64::MAX, PageSize::Large, false), 255),
        ),
        (
            "pvalidate 1 2m 0x1 retry 1",
            retried(pvalidate(1, PageSize::Large, true), 1),
        ),
        (
            "rmpadjust 4096 4k 1 15 0",
            once(rmpadjust(0x1000, PageSize::Small, 1, 15, false)),
        ),
        (
            "rmpadjust 0xffffffffffffffff 2m 255 0xfe 1 retry 0x10",
            retried(rmpadjust(u64::MAX, PageSize::Large, 255, 254, true), 16),
        ),
        (
            "rmpadjust 5 4k 0 255 1",
            once(rmpadjust(5, PageSize::Small, 0, 255, true)),
        ),
    ] {
        assert!(rt; is_line(&CPU, line, expected), "{line}");
    }
}
