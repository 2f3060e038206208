//! Every cell of the two tables: the state of each kind of entry, and whether each command takes each of its pages in each
//! state.

use crate::{PageState, Part, allowed, state_of};
use snp_model::{Command, Kind, RmpEntry};

const STATES: [PageState; 9] = [
    PageState::Hypervisor,
    PageState::PreGuest,
    PageState::PreSwap,
    PageState::GuestInvalid,
    PageState::GuestValid,
    PageState::Reclaim,
    PageState::Firmware,
    PageState::Context,
    PageState::Metadata,
];

const PARTS: [Part; 3] = [Part::Source, Part::Target, Part::Metadata];

// An entry with these fields, those of the table of states.
fn entry(assigned: bool, validated: bool, asid: u16, immutable: bool, kind: Kind) -> RmpEntry {
    RmpEntry {
        assigned,
        immutable,
        asid,
        validated,
        kind,
        ..RmpEntry::free()
    }
}

#[test]
fn states(rt: HostRuntime) {
    let plain = Kind::Plain;
    let cases = [
        // A row of the table each.
        (entry(false, false, 0, false, plain), PageState::Hypervisor),
        (entry(true, false, 5, true, plain), PageState::PreGuest),
        (entry(true, true, 5, true, plain), PageState::PreSwap),
        (entry(true, false, 5, false, plain), PageState::GuestInvalid),
        (entry(true, true, 5, false, plain), PageState::GuestValid),
        (entry(true, false, 0, false, plain), PageState::Reclaim),
        (
            entry(true, false, 0, true, Kind::Firmware),
            PageState::Firmware,
        ),
        (
            entry(true, false, 0, true, Kind::Context),
            PageState::Context,
        ),
        (
            entry(true, false, 0, true, Kind::Metadata),
            PageState::Metadata,
        ),
        // What isn't assigned is Hypervisor whatever else it has.
        (
            entry(false, true, 5, true, Kind::Metadata),
            PageState::Hypervisor,
        ),
        // Without an ASID, Validated is passed over, and Kind where the page isn't immutable.
        (
            entry(true, true, 0, false, Kind::Context),
            PageState::Reclaim,
        ),
        (
            entry(true, true, 0, true, Kind::Metadata),
            PageState::Metadata,
        ),
        // An immutable page of kind Plain counts as Firmware.
        (entry(true, false, 0, true, plain), PageState::Firmware),
        // With an ASID, Kind is passed over.
        (
            entry(true, false, 5, true, Kind::Metadata),
            PageState::PreGuest,
        ),
        (
            entry(true, true, 5, false, Kind::Firmware),
            PageState::GuestValid,
        ),
    ];
    for (facts, want) in cases {
        assert_eq!(rt; state_of(&facts), want, "{facts:?}");
    }
}

// Whether a state is one of those that are listed.
fn is_listed(states: &[PageState], state: PageState) -> bool {
    for listed in states {
        if *listed == state {
            return true;
        }
    }
    false
}

#[test]
fn every_cell(rt: HostRuntime) {
    let guest = 1;
    let frame = 8;
    let source = 8;
    let target = 11;
    let metadata = 10;
    let entry = 0;
    let none: &[PageState] = &[];
    let hypervisor: &[PageState] = &[PageState::Hypervisor];
    let pre_guest: &[PageState] = &[PageState::PreGuest];
    let pre_swap: &[PageState] = &[PageState::PreSwap];
    let firmware: &[PageState] = &[PageState::Firmware];
    let held: &[PageState] = &[PageState::Metadata];
    let sealable: &[PageState] = &[PageState::PreSwap, PageState::PreGuest];
    let reclaimable: &[PageState] = &[
        PageState::Firmware,
        PageState::Metadata,
        PageState::PreGuest,
        PageState::PreSwap,
    ];
    // Each command with the states of its source, its target and its metadata page.
    let rows = [
        (Command::GctxCreate { guest, frame }, [none, firmware, none]),
        (Command::Activate { guest, asid: 1 }, [none, none, none]),
        (Command::LaunchStart { guest }, [none, none, none]),
        (
            Command::LaunchUpdate {
                guest,
                frame,
                page_type: 1,
                imi: false,
                perms: [0; 3],
            },
            [none, pre_guest, none],
        ),
        (Command::LaunchFinish { guest }, [none, none, none]),
        (Command::MdInit { frame }, [none, firmware, none]),
        (
            Command::PageMove {
                guest,
                source,
                target,
            },
            [pre_swap, pre_guest, none],
        ),
        (
            Command::SwapOut {
                guest,
                source,
                target,
                metadata,
                entry,
            },
            [sealable, hypervisor, held],
        ),
        (
            Command::SwapIn {
                guest,
                source,
                target,
                metadata,
                entry,
            },
            [hypervisor, pre_guest, held],
        ),
        (Command::Reclaim { frame }, [none, reclaimable, none]),
        (
            Command::MdOut {
                guest,
                source,
                target,
                metadata,
                entry,
            },
            [held, hypervisor, held],
        ),
        (
            Command::MdIn {
                guest,
                source,
                target,
                metadata,
                entry,
            },
            [hypervisor, firmware, held],
        ),
        (
            Command::MdRootOut {
                guest,
                source,
                target,
            },
            [held, hypervisor, none],
        ),
        (
            Command::MdRootIn {
                guest,
                source,
                target,
            },
            [hypervisor, firmware, none],
        ),
    ];
    for (command, states) in rows {
        for i in 0..3 {
            for state in STATES {
                assert_eq!(rt;
                    allowed(&command, PARTS[i], state),
                    is_listed(states[i], state),
                    "{command:?} {:?} {state:?}",
                    PARTS[i]
                );
            }
        }
    }
}
