ghost use Rattle.std.specs.Prelude.{◌≡◌};
ghost use Rattle.snp_model.specs.PageStates.{allowed, of_three, of_two, target_alone, is_firmware, is_hypervisor, is_metadata, is_pre_guest, is_pre_swap};

use snp_model::{Command, PageState, Part};

/// Whether a command takes a page in a state as this part of it. A command with one page has it as its target; where a
/// command has no such part, the answer is no.
#[tactic(auto, unfolding(snp_model::specs::PageStates::allowed))]
pub fn allowed(command: &Command, part: Part, state: PageState) -> bool
    ensures { result ≡ allowed command.now part state }
{
    match command {
        Command::GctxCreate { .. } => target_alone(part, is_firmware(state)),
        Command::Activate { .. } => false,
        Command::LaunchStart { .. } => false,
        Command::LaunchUpdate { .. } => target_alone(part, is_pre_guest(state)),
        Command::LaunchFinish { .. } => false,
        Command::MdInit { .. } => target_alone(part, is_firmware(state)),
        Command::PageMove { .. } => of_two(part, is_pre_swap(state), is_pre_guest(state)),
        Command::SwapOut { .. } => of_three(
            part,
            is_pre_swap(state) || is_pre_guest(state),
            is_hypervisor(state),
            is_metadata(state),
        ),
        Command::SwapIn { .. } => of_three(
            part,
            is_hypervisor(state),
            is_pre_guest(state),
            is_metadata(state),
        ),
        Command::Reclaim { .. } => target_alone(
            part,
            is_firmware(state) || is_metadata(state) || is_pre_guest(state) || is_pre_swap(state),
        ),
        Command::MdOut { .. } => of_three(
            part,
            is_metadata(state),
            is_hypervisor(state),
            is_metadata(state),
        ),
        Command::MdIn { .. } => of_three(
            part,
            is_hypervisor(state),
            is_firmware(state),
            is_metadata(state),
        ),
        Command::MdRootOut { .. } => of_two(part, is_metadata(state), is_hypervisor(state)),
        Command::MdRootIn { .. } => of_two(part, is_hypervisor(state), is_firmware(state)),
    }
}

// What a command asks of its one page, which is its target.
fn target_alone(part: Part, target: bool) -> bool
    ensures { result ≡ target_alone part target }
{
    match part {
        Part::Source => false,
        Part::Target => target,
        Part::Metadata => false,
    }
}

// What a command asks of its source and its target.
fn of_two(part: Part, source: bool, target: bool) -> bool
    ensures { result ≡ of_two part source target }
{
    match part {
        Part::Source => source,
        Part::Target => target,
        Part::Metadata => false,
    }
}

// What a command asks of its three pages.
fn of_three(part: Part, source: bool, target: bool, metadata: bool) -> bool
    ensures { result ≡ of_three part source target metadata }
{
    match part {
        Part::Source => source,
        Part::Target => target,
        Part::Metadata => metadata,
    }
}

fn is_hypervisor(state: PageState) -> bool
    ensures { result ≡ is_hypervisor state }
{
    matches!(state, PageState::Hypervisor)
}

fn is_pre_guest(state: PageState) -> bool
    ensures { result ≡ is_pre_guest state }
{
    matches!(state, PageState::PreGuest)
}

fn is_pre_swap(state: PageState) -> bool
    ensures { result ≡ is_pre_swap state }
{
    matches!(state, PageState::PreSwap)
}

fn is_firmware(state: PageState) -> bool
    ensures { result ≡ is_firmware state }
{
    matches!(state, PageState::Firmware)
}

fn is_metadata(state: PageState) -> bool
    ensures { result ≡ is_metadata state }
{
    matches!(state, PageState::Metadata)
}
