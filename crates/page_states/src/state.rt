ghost use Rattle.std.specs.Prelude.{◌≡◌};
ghost use Rattle.snp_model.specs.declared.firmware.PageState.{PageState};
ghost use Rattle.snp_model.specs.PageStates.{firmware_state, state_of};
ghost use Rattle.page_states.specs.Rows.{IsInState};

use snp_model::{Kind, PageState, RmpEntry};

/// The state of a page with this entry (after the SEV-SNP firmware ABI 56860, 5.2). An entry that isn't assigned is
/// Hypervisor whatever else it has; one without an ASID has its state whatever Validated is, and one with an ASID whatever
/// its kind is.
#[tactic(auto, unfolding(snp_model::specs::PageStates::state_of))]
pub fn state_of(entry: &RmpEntry) -> PageState
    ensures state { result ≡ state_of entry.now }
    ensures row { IsInState entry.now result }
    ensures only { (other : PageState) → IsInState entry.now other → result ≡ other }
{
    if !entry.assigned {
        PageState::Hypervisor
    } else if entry.asid == 0 {
        if entry.immutable {
            firmware_state(entry.kind)
        } else {
            PageState::Reclaim
        }
    } else if entry.immutable {
        if entry.validated {
            PageState::PreSwap
        } else {
            PageState::PreGuest
        }
    } else if entry.validated {
        PageState::GuestValid
    } else {
        PageState::GuestInvalid
    }
}

// The state of an immutable page that no guest owns.
fn firmware_state(kind: Kind) -> PageState
    ensures { result ≡ firmware_state kind }
{
    match kind {
        Kind::Plain | Kind::Firmware => PageState::Firmware,
        Kind::Context => PageState::Context,
        Kind::Metadata => PageState::Metadata,
    }
}
