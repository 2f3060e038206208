//! The table of commands: the context that each takes, the owner of each page, the tests in their order, and the commits.

ghost use Rattle.std.specs.Prelude.{◌≡◌, ◌<◌, None};

use crate::{context_commit, context_lock, page_commit, page_lock};
use guest_context::GuestContext;
use phys_memory::Region;
use rmp_table::RmpRegion;
use snp_model::{
    Command, FwRefusal, GuestSpec, GuestState, Kind, MetaEntry, PageSize, Part, RmpEntry,
};
use std::alloc::{AllocError, Global};
use std::process::Abort;
use std::test::Fail;

const GUESTS: [GuestSpec; 2] = [
    GuestSpec {
        opened: false,
        asid: 5,
        iv: 0,
        key: [1; 32],
    },
    GuestSpec {
        opened: false,
        asid: 6,
        iv: 0,
        key: [2; 32],
    },
];

const ROOT: MetaEntry = MetaEntry {
    kind: 2,
    vmsa: false,
    validated: false,
    asid: 5,
    gpn: 1 << 63,
    perms: [0; 4],
    iv: 0,
    tag: [9; 16],
};

const CREATE: Command = Command::GctxCreate { guest: 1, frame: 9 };

const ACTIVATE: Command = Command::Activate { guest: 1, asid: 5 };

const START: Command = Command::LaunchStart { guest: 1 };

const UPDATE: Command = Command::LaunchUpdate {
    guest: 1,
    frame: 9,
    page_type: 1,
    imi: false,
    perms: [1, 2, 4],
};

const UPDATE_ZERO: Command = Command::LaunchUpdate {
    guest: 1,
    frame: 9,
    page_type: 3,
    imi: true,
    perms: [8, 4, 2],
};

const UPDATE_UNMEASURED: Command = Command::LaunchUpdate {
    guest: 1,
    frame: 9,
    page_type: 4,
    imi: false,
    perms: [5, 0, 10],
};

const FINISH: Command = Command::LaunchFinish { guest: 1 };

const MD_INIT: Command = Command::MdInit { frame: 9 };

const MOVE: Command = Command::PageMove {
    guest: 1,
    source: 8,
    target: 9,
};

const SWAP_OUT: Command = Command::SwapOut {
    guest: 1,
    source: 8,
    target: 9,
    metadata: 10,
    entry: 0,
};

const SWAP_IN: Command = Command::SwapIn {
    guest: 1,
    source: 8,
    target: 9,
    metadata: 10,
    entry: 0,
};

const RECLAIM: Command = Command::Reclaim { frame: 9 };

const MD_OUT: Command = Command::MdOut {
    guest: 1,
    source: 8,
    target: 9,
    metadata: 10,
    entry: 0,
};

const MD_IN: Command = Command::MdIn {
    guest: 1,
    source: 8,
    target: 9,
    metadata: 10,
    entry: 0,
};

const ROOT_OUT: Command = Command::MdRootOut {
    guest: 1,
    source: 8,
    target: 9,
};

const ROOT_IN: Command = Command::MdRootIn {
    guest: 1,
    source: 8,
    target: 9,
};

const COMMANDS: [Command; 14] = [
    CREATE, ACTIVATE, START, UPDATE, FINISH, MD_INIT, MOVE, SWAP_OUT, SWAP_IN, RECLAIM, MD_OUT,
    MD_IN, ROOT_OUT, ROOT_IN,
];

const STATES: [GuestState; 4] = [
    GuestState::Absent,
    GuestState::Init,
    GuestState::Launching,
    GuestState::Running,
];

// Which contexts in a state a command takes.
#[derive(Clone, Copy, Debug)]
enum Takes {
    No,
    Unbound,
    Bound,
    Any,
}

// What each of the commands takes in each of the states; two name no guest.
const CONTEXTS: [[Takes; 4]; 14] = [
    [Takes::Any, Takes::No, Takes::No, Takes::No],
    [Takes::No, Takes::Unbound, Takes::Unbound, Takes::No],
    [Takes::No, Takes::Any, Takes::No, Takes::No],
    [Takes::No, Takes::No, Takes::Bound, Takes::No],
    [Takes::No, Takes::No, Takes::Bound, Takes::No],
    [Takes::No, Takes::No, Takes::No, Takes::No],
    [Takes::No, Takes::No, Takes::No, Takes::Any],
    [Takes::No, Takes::No, Takes::No, Takes::Any],
    [Takes::No, Takes::No, Takes::No, Takes::Any],
    [Takes::No, Takes::No, Takes::No, Takes::No],
    [Takes::No, Takes::No, Takes::No, Takes::Any],
    [Takes::No, Takes::No, Takes::No, Takes::Any],
    [Takes::No, Takes::No, Takes::No, Takes::Any],
    [Takes::No, Takes::No, Takes::No, Takes::Any],
];

// The context of guest 1, unlocked.
fn context_in(state: GuestState, bound: bool, root: Option<MetaEntry>) -> GuestContext
    ensures { result.holder ≡ None }
{
    let mut context = GuestContext::from_spec(&GUESTS[0]);
    context.state = state;
    context.bound = bound;
    context.root = root;
    context
}

// Whether a binding is among those that are taken.
fn is_taken(takes: Takes, bound: bool) -> bool {
    match takes {
        Takes::No => false,
        Takes::Unbound => !bound,
        Takes::Bound => bound,
        Takes::Any => true,
    }
}

// What the lock of a context answers actor 2, which doesn't hold it, with what stays and the holder after it.
fn context_answer<R: Abort>(
    rt: &R,
    context: &mut GuestContext,
    command: &Command,
    want: Result<(), FwRefusal>,
) {
    let before = context.holder;
    if let Some(holder) = before {
        assert!(rt; holder != 2);
    }
    let found = context_lock(context, command, &GUESTS, 2);
    assert_eq!(rt; found, want, "{command:?}");
    let after = if want.is_ok() { Some(2) } else { before };
    assert_eq!(rt; context.holder, after, "{command:?}");
}

#[test]
fn every_context(rt: HostRuntime) {
    for i in 0..14 {
        for j in 0..4 {
            for bound in [false, true] {
                // One command needs the root.
                let root = if i == 13 { Some(ROOT) } else { None };
                let mut context = context_in(STATES[j], bound, root);
                let want = if is_taken(CONTEXTS[i][j], bound) {
                    Ok(())
                } else {
                    Err(FwRefusal::Status(0x02))
                };
                context_answer(&rt, &mut context, &COMMANDS[i], want);
            }
        }
    }
}

// Two of a command's frames are equal, whatever else would be refused.
const EQUAL_FRAMES: [Command; 8] = [
    Command::PageMove {
        guest: 1,
        source: 8,
        target: 8,
    },
    Command::SwapOut {
        guest: 1,
        source: 8,
        target: 8,
        metadata: 10,
        entry: 0,
    },
    Command::SwapOut {
        guest: 1,
        source: 8,
        target: 9,
        metadata: 8,
        entry: 0,
    },
    Command::SwapIn {
        guest: 1,
        source: 8,
        target: 9,
        metadata: 9,
        entry: 0,
    },
    Command::MdOut {
        guest: 1,
        source: 8,
        target: 9,
        metadata: 9,
        entry: 0,
    },
    Command::MdIn {
        guest: 1,
        source: 8,
        target: 9,
        metadata: 8,
        entry: 0,
    },
    Command::MdRootOut {
        guest: 1,
        source: 8,
        target: 8,
    },
    Command::MdRootIn {
        guest: 1,
        source: 8,
        target: 8,
    },
];

const ACTIVATE_OTHER: Command = Command::Activate { guest: 1, asid: 6 };

const ACTIVATE_NONE: Command = Command::Activate { guest: 1, asid: 7 };

const UPDATE_OF_TYPE_2: Command = Command::LaunchUpdate {
    guest: 1,
    frame: 9,
    page_type: 2,
    imi: false,
    perms: [0; 3],
};

const STATE: Result<(), FwRefusal> = Err(FwRefusal::Status(0x02));

const OWNED: Result<(), FwRefusal> = Err(FwRefusal::Status(0x0c));

const PARAM: Result<(), FwRefusal> = Err(FwRefusal::Status(0x16));

const ENTRY: Result<(), FwRefusal> = Err(FwRefusal::Status(0x1b));

const COUNTER: Result<(), FwRefusal> = Err(FwRefusal::Status(0x1d));

const HELD: Result<(), FwRefusal> = Err(FwRefusal::InUse { holder: 3 });

const LAST: u64 = u64::MAX;

// A context's state and holder, counter and root, and the answer to a command.
const TESTS: [(
    Command,
    GuestState,
    Option<u32>,
    u64,
    Option<MetaEntry>,
    Result<(), FwRefusal>,
); 19] = [
    // The lock comes before the state, and the state before the further test.
    (MOVE, GuestState::Absent, Some(3), 0, None, HELD),
    (SWAP_OUT, GuestState::Absent, Some(3), LAST, None, HELD),
    (SWAP_OUT, GuestState::Absent, None, LAST, None, STATE),
    (ROOT_IN, GuestState::Launching, None, 0, None, STATE),
    (ACTIVATE_OTHER, GuestState::Running, None, 0, None, STATE),
    // The counter, and the root.
    (SWAP_OUT, GuestState::Running, None, LAST, None, COUNTER),
    (SWAP_OUT, GuestState::Running, None, LAST - 1, None, Ok(())),
    (SWAP_IN, GuestState::Running, None, LAST, None, Ok(())),
    (MD_OUT, GuestState::Running, None, LAST, None, COUNTER),
    (MD_IN, GuestState::Running, None, LAST, None, Ok(())),
    (
        ROOT_OUT,
        GuestState::Running,
        None,
        LAST,
        Some(ROOT),
        COUNTER,
    ),
    (ROOT_OUT, GuestState::Running, None, 0, Some(ROOT), ENTRY),
    (ROOT_OUT, GuestState::Running, None, LAST - 1, None, Ok(())),
    (ROOT_IN, GuestState::Running, None, LAST, None, ENTRY),
    (ROOT_IN, GuestState::Running, None, LAST, Some(ROOT), Ok(())),
    // The ASID of the other guest, of none, and its own.
    (ACTIVATE_OTHER, GuestState::Init, None, 0, None, OWNED),
    (ACTIVATE_NONE, GuestState::Init, None, 0, None, PARAM),
    (ACTIVATE, GuestState::Init, None, 0, None, Ok(())),
    (UPDATE_OF_TYPE_2, GuestState::Init, None, 0, None, STATE),
];

#[test]
fn context_tests_in_order(rt: HostRuntime) {
    for command in EQUAL_FRAMES {
        let mut context = context_in(GuestState::Absent, false, None);
        context.holder = Some(3);
        context_answer(&rt, &mut context, &command, PARAM);
    }
    for (command, state, holder, iv, root, want) in TESTS {
        let mut context = context_in(state, false, root);
        context.iv = iv;
        context.holder = holder;
        context_answer(&rt, &mut context, &command, want);
        assert_eq!(rt; context.iv, iv);
        assert_eq!(rt; context.root, root);
    }
    for (command, want) in [
        (UPDATE_OF_TYPE_2, PARAM),
        (UPDATE_ZERO, Ok(())),
        (UPDATE_UNMEASURED, Ok(())),
    ] {
        let mut context = context_in(GuestState::Launching, true, None);
        context_answer(&rt, &mut context, &command, want);
    }
}

// A Firmware page, a guest's Pre-Guest page, and the same with other fields.
const FIRMWARE: RmpEntry = RmpEntry {
    assigned: true,
    size: PageSize::Small,
    immutable: true,
    gpn: 0,
    asid: 0,
    vmsa: false,
    validated: false,
    perms: [0; 4],
    kind: Kind::Firmware,
};

const CONTEXT: RmpEntry = RmpEntry {
    kind: Kind::Context,
    ..FIRMWARE
};

const METADATA: RmpEntry = RmpEntry {
    kind: Kind::Metadata,
    ..FIRMWARE
};

const FREE: RmpEntry = RmpEntry {
    assigned: false,
    immutable: false,
    kind: Kind::Plain,
    ..FIRMWARE
};

// A Pre-Guest page and a Pre-Swap page of the guest with ASID 6.
const PRE_GUEST: RmpEntry = RmpEntry {
    assigned: true,
    size: PageSize::Small,
    immutable: true,
    gpn: 0x40,
    asid: 6,
    vmsa: true,
    validated: false,
    perms: [15, 0, 0, 0],
    kind: Kind::Plain,
};

const PRE_SWAP: RmpEntry = RmpEntry {
    validated: true,
    ..PRE_GUEST
};

const PAGE_STATE: Result<(), FwRefusal> = Err(FwRefusal::Status(0x1a));

const OWNER: Result<(), FwRefusal> = Err(FwRefusal::Status(0x1c));

// Each page of each command in the states that it takes, of another guest where one owns it.
const PAGES: [(Command, Part, RmpEntry, Result<(), FwRefusal>); 26] = [
    (CREATE, Part::Target, FIRMWARE, Ok(())),
    (UPDATE, Part::Target, PRE_GUEST, OWNER),
    (MD_INIT, Part::Target, FIRMWARE, Ok(())),
    (MOVE, Part::Source, PRE_SWAP, OWNER),
    (MOVE, Part::Target, PRE_GUEST, OWNER),
    (SWAP_OUT, Part::Source, PRE_SWAP, OWNER),
    (SWAP_OUT, Part::Source, PRE_GUEST, OWNER),
    (SWAP_OUT, Part::Target, FREE, Ok(())),
    (SWAP_OUT, Part::Metadata, METADATA, Ok(())),
    (SWAP_IN, Part::Source, FREE, Ok(())),
    (SWAP_IN, Part::Target, PRE_GUEST, OWNER),
    (SWAP_IN, Part::Metadata, METADATA, Ok(())),
    (RECLAIM, Part::Target, FIRMWARE, Ok(())),
    (RECLAIM, Part::Target, METADATA, Ok(())),
    (RECLAIM, Part::Target, PRE_GUEST, Ok(())),
    (RECLAIM, Part::Target, PRE_SWAP, Ok(())),
    (MD_OUT, Part::Source, METADATA, Ok(())),
    (MD_OUT, Part::Target, FREE, Ok(())),
    (MD_OUT, Part::Metadata, METADATA, Ok(())),
    (MD_IN, Part::Source, FREE, Ok(())),
    (MD_IN, Part::Target, FIRMWARE, Ok(())),
    (MD_IN, Part::Metadata, METADATA, Ok(())),
    (ROOT_OUT, Part::Source, METADATA, Ok(())),
    (ROOT_OUT, Part::Target, FREE, Ok(())),
    (ROOT_IN, Part::Source, FREE, Ok(())),
    (ROOT_IN, Part::Target, FIRMWARE, Ok(())),
];

// A region whose frame 9 is a page of 4 KB.
fn region_of<R: Abort>(rt: &R, alloc: Global, entry: RmpEntry) -> Result<RmpRegion, AllocError> {
    let mut rmp = RmpRegion::free(alloc)?;
    assert!(rt; entry.size == PageSize::Small && rmp.effective(9).size == PageSize::Small);
    rmp.write_entry(9, entry);
    Ok(rmp)
}

// Locks a frame's page for an actor that doesn't hold it.
fn lock<R: Abort>(rt: &R, rmp: &mut RmpRegion, slot: usize, actor: u32)
    requires { slot < 512 }
{
    if let Some(holder) = rmp.holder(slot) {
        assert!(rt; holder != actor);
    }
    assert!(rt; rmp.lock(slot, actor).is_ok());
}

// What the lock of frame 9 answers actor 2, which doesn't hold it, for a guest with ASID 5, with what stays and the holder
// after it.
fn page_answer<R: Abort>(
    rt: &R,
    rmp: &mut RmpRegion,
    command: &Command,
    part: Part,
    want: Result<(), FwRefusal>,
) {
    let before = rmp.holder(9);
    let entry = rmp.effective(9);
    if let Some(holder) = before {
        assert!(rt; holder != 2);
    }
    let found = page_lock(rmp, command, part, 9, 5, 2);
    assert_eq!(rt; found, want, "{command:?} {part:?} {entry:?}");
    let after = if want.is_ok() { Some(2) } else { before };
    assert_eq!(rt; rmp.holder(9), after, "{command:?} {part:?}");
    assert_eq!(rt; rmp.effective(9), entry);
}

// What the lock of a page of 4 KB answers, which actor 3 has locked or nobody.
fn page_case<R: Abort>(
    rt: &R,
    alloc: Global,
    entry: RmpEntry,
    command: &Command,
    part: Part,
    want: Result<(), FwRefusal>,
) -> Result<(), Fail> {
    let mut rmp = region_of(rt, alloc, entry)?;
    if want == HELD {
        lock(rt, &mut rmp, 9, 3);
    }
    page_answer(rt, &mut rmp, command, part, want);
    assert_eq!(rt; rmp.holder(8), None);
    Ok(())
}

// The same page of the guest with ASID 5.
fn own(entry: RmpEntry) -> RmpEntry {
    RmpEntry {
        asid: if entry.asid == 6 { 5 } else { entry.asid },
        ..entry
    }
}

#[test]
fn every_page_of_a_command(rt: HostRuntime) -> Result<(), Fail> {
    for (command, part, entry, want) in PAGES {
        page_case(&rt, rt.alloc(), entry, &command, part, want)?;
        page_case(&rt, rt.alloc(), own(entry), &command, part, Ok(()))?;
        // A page that no command takes; another actor's lock comes before the state.
        page_case(&rt, rt.alloc(), CONTEXT, &command, part, PAGE_STATE)?;
        page_case(&rt, rt.alloc(), CONTEXT, &command, part, HELD)?;
    }
    Ok(())
}

// A region that is a Pre-Guest page of 2 MB.
fn one_page(alloc: Global) -> Result<RmpRegion, AllocError> {
    let mut rmp = RmpRegion::free(alloc)?;
    let head = RmpEntry {
        size: PageSize::Large,
        gpn: 0x200,
        asid: 5,
        ..PRE_GUEST
    };
    rmp.write_entry(0, head);
    Ok(rmp)
}

const SIZE: Result<(), FwRefusal> = Err(FwRefusal::Status(0x19));

#[test]
fn pages_of_2_mb(rt: HostRuntime) -> Result<(), Fail> {
    // The lock comes before the size, and the size before the state.
    for (command, want, holder) in [
        (RECLAIM, Ok(()), Some(2)),
        (UPDATE, SIZE, None),
        (CREATE, SIZE, None),
        (CREATE, HELD, Some(3)),
    ] {
        let mut rmp = one_page(rt.alloc())?;
        if want == HELD {
            lock(&rt, &mut rmp, 511, 3);
        }
        page_answer(&rt, &mut rmp, &command, Part::Target, want);
        assert_eq!(rt; rmp.holder(511), holder, "{command:?}");
    }
    Ok(())
}

// The guest's own Pre-Guest page, and those that it becomes.
const FRESH: RmpEntry = RmpEntry {
    asid: 5,
    ..PRE_GUEST
};

const LAUNCHED: RmpEntry = RmpEntry {
    validated: true,
    immutable: false,
    perms: [15, 1, 2, 4],
    ..FRESH
};

const LAUNCHED_ZERO: RmpEntry = RmpEntry {
    perms: [15, 8, 4, 2],
    ..LAUNCHED
};

const LAUNCHED_UNMEASURED: RmpEntry = RmpEntry {
    perms: [15, 5, 0, 10],
    ..LAUNCHED
};

// A page before and after its commit, and each of its words, which are 7 before. The page of `md_init` is made elsewhere.
const COMMITS: [(Command, RmpEntry, RmpEntry, u64); 5] = [
    (CREATE, FIRMWARE, CONTEXT, 7),
    (UPDATE, FRESH, LAUNCHED, 7),
    (UPDATE_ZERO, FRESH, LAUNCHED_ZERO, 0),
    (UPDATE_UNMEASURED, FRESH, LAUNCHED_UNMEASURED, 7),
    (MD_INIT, FIRMWARE, FIRMWARE, 7),
];

// The commit of frame 9, which actor 2 has locked.
fn commit<R: Abort>(rt: &R, memory: &mut Region, rmp: &mut RmpRegion, command: &Command) {
    match rmp.holder(9) {
        Some(holder) => assert!(rt; holder == 2),
        None => assert!(rt; false),
    }
    assert!(rt; rmp.effective(9).size == PageSize::Small);
    page_commit(memory, rmp, command, 9, 2);
}

// The page, its words and the locks after a commit; the next page stays.
fn committed<R: Abort>(rt: &R, memory: &Region, rmp: &RmpRegion, want: RmpEntry, word: u64) {
    assert_eq!(rt; rmp.effective(9), want);
    assert_eq!(rt; rmp.effective(10), FREE);
    assert_eq!(rt; memory.load(9, 0), word);
    assert_eq!(rt; memory.load(9, 511), word);
    assert_eq!(rt; memory.load(10, 0), 7);
    // The actor's locks are released, and no other's.
    assert_eq!(rt; rmp.holder(9), None);
    assert_eq!(rt; rmp.holder(11), None);
    assert_eq!(rt; rmp.holder(12), Some(3));
}

#[test]
fn page_commits(rt: HostRuntime) -> Result<(), Fail> {
    for (command, before, want, word) in COMMITS {
        let mut memory = Region::zeroed(rt.alloc())?;
        memory.page_fill(9, 7);
        memory.page_fill(10, 7);
        let mut rmp = region_of(&rt, rt.alloc(), before)?;
        lock(&rt, &mut rmp, 11, 2);
        lock(&rt, &mut rmp, 12, 3);
        page_answer(&rt, &mut rmp, &command, Part::Target, Ok(()));
        commit(&rt, &mut memory, &mut rmp, &command);
        committed(&rt, &memory, &rmp, want, word);
    }
    Ok(())
}

// Locks a context that nobody holds for actor 2, and commits.
fn go<R: Abort>(rt: &R, context: &mut GuestContext, command: &Command, gpn: u64, word: u64) {
    if context.holder.is_some() {
        assert!(rt; false);
    }
    match context_lock(context, command, &GUESTS, 2) {
        Ok(()) => context_commit(context, command, gpn, &[word; 512], 2),
        Err(_) => assert!(rt; false),
    }
    assert_eq!(rt; context.holder, None);
}

// A launch: each command with the guest page number and the words of its page, the state and the binding after it, how many
// pages were launched, and the digest's first bytes, by Python's hashlib.
const LAUNCH: [(Command, u64, u64, GuestState, bool, u32, [u8; 4]); 8] = [
    (CREATE, 0, 0, GuestState::Init, false, 0, [0; 4]),
    (START, 0, 0, GuestState::Launching, false, 0, [0; 4]),
    (ACTIVATE, 0, 0, GuestState::Launching, true, 0, [0; 4]),
    (
        UPDATE,
        0,
        0,
        GuestState::Launching,
        true,
        1,
        [0x4b, 0x3c, 0x59, 0x2d],
    ),
    (
        UPDATE_ZERO,
        0x80000,
        0,
        GuestState::Launching,
        true,
        2,
        [0x77, 0x8c, 0x25, 0xfb],
    ),
    (
        UPDATE_UNMEASURED,
        0xf_ffff_ffff,
        7,
        GuestState::Launching,
        true,
        3,
        [0x9e, 0xac, 0x3a, 0xf8],
    ),
    (
        FINISH,
        0,
        0,
        GuestState::Running,
        true,
        3,
        [0x9e, 0xac, 0x3a, 0xf8],
    ),
    (
        MOVE,
        0,
        0,
        GuestState::Running,
        true,
        3,
        [0x9e, 0xac, 0x3a, 0xf8],
    ),
];

#[test]
fn a_launch(rt: HostRuntime) {
    let mut context = context_in(GuestState::Absent, false, None);
    for (command, gpn, word, state, bound, pages, digest) in LAUNCH {
        go(&rt, &mut context, &command, gpn, word);
        assert_eq!(rt; context.state, state, "{command:?}");
        assert_eq!(rt; context.bound, bound, "{command:?}");
        assert_eq!(rt; context.pages, pages, "{command:?}");
        let [a, b, c, d, ..] = context.digest.bytes();
        assert_eq!(rt; [a, b, c, d], digest, "{command:?}");
        assert_eq!(rt; context.iv, 0);
    }
}

// The counter after each command, from 0 on. The root is set by another call.
const COUNTERS: [(Command, u64, Option<MetaEntry>); 6] = [
    (SWAP_OUT, 1, None),
    (SWAP_IN, 1, None),
    (MD_OUT, 2, None),
    (MD_IN, 2, None),
    (ROOT_OUT, 3, None),
    (ROOT_IN, 3, Some(ROOT)),
];

#[test]
fn counters(rt: HostRuntime) {
    let mut context = context_in(GuestState::Running, true, None);
    for (command, iv, root) in COUNTERS {
        context.root = root;
        go(&rt, &mut context, &command, 0, 0);
        assert_eq!(rt; context.iv, iv, "{command:?}");
        assert_eq!(rt; context.root, root, "{command:?}");
        assert_eq!(rt; context.pages, 0);
    }

    // The count of launched pages stands still at its end.
    let mut context = context_in(GuestState::Launching, true, None);
    context.pages = u32::MAX - 1;
    for _ in 0..2 {
        go(&rt, &mut context, &UPDATE, 0, 0);
        assert_eq!(rt; context.pages, u32::MAX);
    }
}
