ghost use Rattle.std.specs.Prelude.{◌≡◌, ◌≢◌, ◌==◌, ◌&&◌, not, ℕ, Some, IsOk, IsErr};
ghost use Rattle.snp_model.specs.Firmware.{any_equal, has_equal_frames};
ghost use Rattle.snp_model.specs.FirmwareLocks.{asid_refusal, context_extra, context_refusal, counter_refusal, firmware_answer, is_absent, is_init, is_launching, is_of_another, is_running, root_in_refusal, root_out_refusal, takes_context, type_refusal};
ghost use Rattle.snp_model.specs.HeldContexts.{held_by};
ghost use Rattle.fw_launch.specs.Commits.{HasPassed, refusal_of};

use crate::status::{
    AEAD_OFLOW, ASID_OWNED, INVALID_GUEST_STATE, INVALID_MDATA_ENTRY, INVALID_PARAM,
};
use guest_context::GuestContext;
use snp_model::{Command, FwRefusal, GuestSpec, GuestState, InUse};

/// Locks the context of the guest that a command names, for an actor, with the tests; `guests` are the declared guests, of
/// which it is one. A refusal is that of the first test that applies, and changes nothing: two of the command's frames are
/// equal (0x16), another actor holds the lock, the guest's state or its binding isn't as asked (0x02), the command's
/// further test. Takes no memory.
#[tactic(auto, unfolding(snp_model::specs::FirmwareLocks::context_refusal))]
pub fn context_lock(
    context: &mut GuestContext,
    command: &Command,
    guests: &[GuestSpec],
    actor: u32,
) -> Result<(), FwRefusal>
    requires not_held { context.old.holder ≢ Some actor }
    ensures answer { result ≡ firmware_answer (context_refusal guests.now command.now context.old.context context.old.holder) }
    ensures another { (holder : ℕ) → result ≡ Err (FwRefusal.InUse holder) → holder ≢ actor }
    ensures passed { IsOk result → HasPassed command.now context.old.context }
    ensures locked { IsOk result → context.new ≡ held_by actor context.old }
    ensures refused { IsErr result → context.new ≡ context.old }
{
    if has_equal_frames(command) {
        return Err(FwRefusal::Status(INVALID_PARAM));
    }
    if let Some(holder) = context.holder {
        return Err(FwRefusal::InUse { holder });
    }
    if !takes_context(command, context.state, context.bound) {
        return Err(FwRefusal::Status(INVALID_GUEST_STATE));
    }
    match further_test(context, command, guests) {
        Some(status) => Err(FwRefusal::Status(status)),
        None => match context.lock(actor) {
            Ok(()) => Ok(()),
            Err(InUse { holder }) => Err(FwRefusal::InUse { holder }),
        },
    }
}

// Whether two of a command's frames are equal.
#[tactic(auto, unfolding(snp_model::specs::Firmware::has_equal_frames))]
fn has_equal_frames(command: &Command) -> bool
    ensures { result ≡ has_equal_frames command.now }
{
    match command {
        Command::PageMove { source, target, .. }
        | Command::MdRootOut { source, target, .. }
        | Command::MdRootIn { source, target, .. } => source == target,
        Command::SwapOut {
            source,
            target,
            metadata,
            ..
        }
        | Command::SwapIn {
            source,
            target,
            metadata,
            ..
        }
        | Command::MdOut {
            source,
            target,
            metadata,
            ..
        }
        | Command::MdIn {
            source,
            target,
            metadata,
            ..
        } => source == target || source == metadata || target == metadata,
        Command::GctxCreate { .. }
        | Command::Activate { .. }
        | Command::LaunchStart { .. }
        | Command::LaunchUpdate { .. }
        | Command::LaunchFinish { .. }
        | Command::MdInit { .. }
        | Command::Reclaim { .. } => false,
    }
}

// Whether a command takes a context in this state, bound or not.
#[tactic(auto, unfolding(snp_model::specs::FirmwareLocks::takes_context))]
fn takes_context(command: &Command, state: GuestState, bound: bool) -> bool
    ensures { result ≡ takes_context command.now state bound }
{
    match command {
        Command::GctxCreate { .. } => is_absent(state),
        Command::Activate { .. } => (is_init(state) || is_launching(state)) && !bound,
        Command::LaunchStart { .. } => is_init(state),
        Command::LaunchUpdate { .. } | Command::LaunchFinish { .. } => {
            is_launching(state) && bound
        }
        Command::MdInit { .. } | Command::Reclaim { .. } => false,
        Command::PageMove { .. }
        | Command::SwapOut { .. }
        | Command::SwapIn { .. }
        | Command::MdOut { .. }
        | Command::MdIn { .. }
        | Command::MdRootOut { .. }
        | Command::MdRootIn { .. } => is_running(state),
    }
}

fn is_absent(state: GuestState) -> bool
    ensures { result ≡ is_absent state }
{
    matches!(state, GuestState::Absent)
}

fn is_init(state: GuestState) -> bool
    ensures { result ≡ is_init state }
{
    matches!(state, GuestState::Init)
}

fn is_launching(state: GuestState) -> bool
    ensures { result ≡ is_launching state }
{
    matches!(state, GuestState::Launching)
}

fn is_running(state: GuestState) -> bool
    ensures { result ≡ is_running state }
{
    matches!(state, GuestState::Running)
}

// The status of a command's last test of a context, where it refuses.
#[tactic(auto, unfolding(snp_model::specs::FirmwareLocks::context_extra))]
fn further_test(context: &GuestContext, command: &Command, guests: &[GuestSpec]) -> Option<u16>
    ensures { refusal_of result ≡ context_extra guests.now command.now context.now.context }
{
    match command {
        Command::Activate { guest, asid } => asid_test(context, guests, *guest, *asid),
        Command::LaunchUpdate { page_type, .. } => type_test(*page_type),
        Command::SwapOut { .. } | Command::MdOut { .. } => counter_test(context),
        Command::MdRootOut { .. } => root_out_test(context),
        Command::MdRootIn { .. } => root_in_test(context),
        Command::GctxCreate { .. }
        | Command::LaunchStart { .. }
        | Command::LaunchFinish { .. }
        | Command::MdInit { .. }
        | Command::PageMove { .. }
        | Command::SwapIn { .. }
        | Command::Reclaim { .. }
        | Command::MdIn { .. } => None,
    }
}

// The ASID that a guest is to be bound to is no other guest's, and its own.
#[tactic(auto, unfolding(snp_model::specs::FirmwareLocks::asid_refusal))]
fn asid_test(context: &GuestContext, guests: &[GuestSpec], guest: u8, asid: u16) -> Option<u16>
    ensures { refusal_of result ≡ asid_refusal guests.now guest asid context.now.context }
{
    if is_of_another(guests, guest, asid) {
        Some(ASID_OWNED)
    } else if asid != context.asid {
        Some(INVALID_PARAM)
    } else {
        None
    }
}

// Whether a guest other than this one has an ASID.
#[tactic(auto, unfolding(snp_model::specs::FirmwareLocks::is_of_another))]
fn is_of_another(guests: &[GuestSpec], guest: u8, asid: u16) -> bool
    ensures { result ≡ is_of_another 1 guests.now guest asid }
{
    for (place, spec) in guests.iter().enumerate() {
        if has_asid(place + 1, spec, guest, asid) {
            return true;
        }
    }
    false
}

// Whether a guest with this number is another one, with this ASID.
fn has_asid(number: usize, spec: &GuestSpec, guest: u8, asid: u16) -> bool
    ensures { result ≡ (not (number == guest) && (spec.now.asid == asid)) }
{
    number != guest as usize && spec.asid == asid
}

// A page type is launched: 1 is NORMAL, 3 is ZERO, 4 is UNMEASURED.
#[tactic(auto, unfolding(snp_model::specs::FirmwareLocks::type_refusal))]
fn type_test(page_type: u8) -> Option<u16>
    ensures { refusal_of result ≡ type_refusal page_type }
{
    if page_type == 1 || page_type == 3 || page_type == 4 {
        None
    } else {
        Some(INVALID_PARAM)
    }
}

// A counter is left to seal under.
#[tactic(auto, unfolding(snp_model::specs::FirmwareLocks::counter_refusal))]
fn counter_test(context: &GuestContext) -> Option<u16>
    ensures { refusal_of result ≡ counter_refusal context.now.context }
{
    if context.iv == u64::MAX {
        Some(AEAD_OFLOW)
    } else {
        None
    }
}

// A counter is left, and the root isn't in use.
#[tactic(auto, unfolding(snp_model::specs::FirmwareLocks::root_out_refusal))]
fn root_out_test(context: &GuestContext) -> Option<u16>
    ensures { refusal_of result ≡ root_out_refusal context.now.context }
{
    if context.iv == u64::MAX {
        Some(AEAD_OFLOW)
    } else if context.root.is_some() {
        Some(INVALID_MDATA_ENTRY)
    } else {
        None
    }
}

// The root is in use.
#[tactic(auto, unfolding(snp_model::specs::FirmwareLocks::root_in_refusal))]
fn root_in_test(context: &GuestContext) -> Option<u16>
    ensures { refusal_of result ≡ root_in_refusal context.now.context }
{
    if context.root.is_some() {
        None
    } else {
        Some(INVALID_MDATA_ENTRY)
    }
}
