ghost use Rattle.std.specs.Prelude.{◌≡◌, None, length, slice_get};
ghost use Rattle.std.specs.Option.{option_map};
ghost use Rattle.snp_model.specs.Firmware.{guest_of, one_page, pages_of, three_pages, two_pages};
ghost use Rattle.snp_model.specs.FirmwareStep.{pages_phase, phase_of};
ghost use Rattle.snp_model.specs.Sealing.{sealing_of};
ghost use Rattle.machine_core.specs.Commands.{CommitsAs, command_page, phase_by};

use crate::actor::ActorState;
use crate::sealing::{Sealing, sealing_of};
use snp_model::{Command, Part};

/// A page that a command names: which part of the command, and the frame.
#[derive(Clone, Copy)]
pub struct NamedPage {
    pub part: Part,
    pub frame: u64,
}

/// What the open attempt of a command needs next.
#[derive(Clone, Copy)]
pub enum Next {
    /// The lock of the context of its guest.
    TakeContext(u8),
    /// The lock of a page.
    TakePage(NamedPage),
    /// The compute of the page that it seals or opens.
    Compute(Sealing),
    /// Its commit, with the page that was made.
    CommitSwap(Sealing),
    /// Its commit, where it seals and opens nothing.
    Commit,
}

/// What the open attempt of a command needs next: first the lock of its guest's context, then those of its pages, in their
/// order, then the compute, if it seals or opens a page, and then the commit.
#[tactic(auto, unfolding(snp_model::specs::FirmwareStep::context_phase))]
pub fn next_of(command: &Command, actor: &ActorState) -> Next
    ensures phase { phase_by result ≡ phase_of command.now actor.now.standing }
    ensures commits { CommitsAs result (sealing_of command.now) }
{
    let pages = next_page(command, actor);
    match guest_of(command) {
        None => pages,
        Some(guest) => match actor.context_lock() {
            None => Next::TakeContext(guest),
            Some(_) => pages,
        },
    }
}

// What it needs once the context is locked.
#[tactic(auto, unfolding(snp_model::specs::FirmwareStep::pages_phase))]
fn next_page(command: &Command, actor: &ActorState) -> Next
    ensures phase { phase_by result ≡ pages_phase (slice_get (pages_of command.now) (length actor.now.standing.locks)) (sealing_of command.now) actor.now.standing.computed }
    ensures commits { CommitsAs result (sealing_of command.now) }
{
    match page_at(command, actor.locks_taken()) {
        Some(page) => Next::TakePage(page),
        None => once_locked(command, actor),
    }
}

// What it needs once its pages are locked too.
#[tactic(auto, unfolding(snp_model::specs::FirmwareStep::pages_phase))]
fn once_locked(command: &Command, actor: &ActorState) -> Next
    ensures phase { phase_by result ≡ pages_phase None (sealing_of command.now) actor.now.standing.computed }
    ensures commits { CommitsAs result (sealing_of command.now) }
{
    match sealing_of(command) {
        None => Next::Commit,
        Some(sealing) => {
            if actor.has_made() {
                Next::CommitSwap(sealing)
            } else {
                Next::Compute(sealing)
            }
        }
    }
}

/// The guest that a command names.
#[tactic(auto, unfolding(snp_model::specs::Firmware::guest_of))]
pub fn guest_of(command: &Command) -> Option<u8>
    ensures { result ≡ guest_of command.now }
{
    match command {
        Command::GctxCreate { guest, .. }
        | Command::Activate { guest, .. }
        | Command::LaunchStart { guest }
        | Command::LaunchUpdate { guest, .. }
        | Command::LaunchFinish { guest }
        | Command::PageMove { guest, .. }
        | Command::SwapOut { guest, .. }
        | Command::SwapIn { guest, .. }
        | Command::MdOut { guest, .. }
        | Command::MdIn { guest, .. }
        | Command::MdRootOut { guest, .. }
        | Command::MdRootIn { guest, .. } => Some(*guest),
        Command::MdInit { .. } | Command::Reclaim { .. } => None,
    }
}

// A page of a command, by its number in the order of their locks, from 0.
#[tactic(auto, unfolding(snp_model::specs::Firmware::pages_of))]
fn page_at(command: &Command, number: usize) -> Option<NamedPage>
    ensures { option_map command_page result ≡ slice_get (pages_of command.now) number }
{
    match command {
        Command::Activate { .. } | Command::LaunchStart { .. } | Command::LaunchFinish { .. } =>
            None,
        Command::GctxCreate { frame, .. }
        | Command::LaunchUpdate { frame, .. }
        | Command::MdInit { frame }
        | Command::Reclaim { frame } => one_page(*frame, number),
        Command::PageMove { source, target, .. }
        | Command::MdRootOut { source, target, .. }
        | Command::MdRootIn { source, target, .. } => two_pages(*source, *target, number),
        Command::SwapOut {
            source,
            target,
            metadata,
            ..
        }
        | Command::SwapIn {
            source,
            target,
            metadata,
            ..
        }
        | Command::MdOut {
            source,
            target,
            metadata,
            ..
        }
        | Command::MdIn {
            source,
            target,
            metadata,
            ..
        } => three_pages(*source, *target, *metadata, number),
    }
}

// The one page of a command.
fn one_page(target: u64, number: usize) -> Option<NamedPage>
    ensures { option_map command_page result ≡ slice_get (one_page target) number }
{
    match number {
        0 => Some(named(Part::Target, target)),
        _ => None,
    }
}

// The source and the target of a command.
fn two_pages(source: u64, target: u64, number: usize) -> Option<NamedPage>
    ensures { option_map command_page result ≡ slice_get (two_pages source target) number }
{
    match number {
        0 => Some(named(Part::Source, source)),
        1 => Some(named(Part::Target, target)),
        _ => None,
    }
}

// The source, the target and the metadata page of a command.
fn three_pages(source: u64, target: u64, metadata: u64, number: usize) -> Option<NamedPage>
    ensures { option_map command_page result ≡ slice_get (three_pages source target metadata) number }
{
    match number {
        0 => Some(named(Part::Source, source)),
        1 => Some(named(Part::Target, target)),
        2 => Some(named(Part::Metadata, metadata)),
        _ => None,
    }
}

fn named(part: Part, frame: u64) -> NamedPage
    ensures { result ≡ record { part = part; frame = frame } }
{
    NamedPage { part, frame }
}
