ghost use Rattle.std.specs.Prelude.{◌≡◌, true, Some};
ghost use Rattle.std.specs.Option.{option_map};
ghost use Rattle.snp_model.specs.Sealing.{OfEntry, SealIn, SealOut, sealing_of};
ghost use Rattle.machine_core.specs.Seals.{is_opened, sealing_by, what_by};

use snp_model::Command;

/// What is sealed.
#[derive(Clone, Copy)]
pub enum What {
    GuestPage,
    MetadataPage,
}

/// Where the entry of what is sealed is kept.
#[derive(Clone, Copy)]
pub enum Slot {
    /// In the metadata page of a frame, under a number below 64.
    OfEntry { metadata: u64, number: u8 },
    /// In the context of the guest.
    OfRoot,
}

/// Whether a page is sealed, or opened.
#[derive(Clone, Copy)]
pub enum Way {
    Out,
    In,
}

/// A page that a command seals or opens: the page of the source is sealed into the frame of the target, or opened into it.
#[derive(Clone, Copy)]
pub struct Sealing {
    pub way: Way,
    pub what: What,
    pub guest: u8,
    pub source: u64,
    pub target: u64,
    pub slot: Slot,
}

/// What a command seals or opens, if it does.
#[tactic(auto, unfolding(snp_model::specs::Sealing::sealing_of))]
pub fn sealing_of(command: &Command) -> Option<Sealing>
    ensures { option_map sealing_by result ≡ sealing_of command.now }
{
    match *command {
        Command::SwapOut {
            guest,
            source,
            target,
            metadata,
            entry,
        } => sealed(What::GuestPage, guest, source, target, metadata, entry),
        Command::MdOut {
            guest,
            source,
            target,
            metadata,
            entry,
        } => sealed(What::MetadataPage, guest, source, target, metadata, entry),
        Command::MdRootOut {
            guest,
            source,
            target,
        } => by_root(Way::Out, guest, source, target),
        Command::SwapIn { .. } | Command::MdIn { .. } | Command::MdRootIn { .. } => opening_of(
            command,
        ),
        Command::GctxCreate { .. }
        | Command::Activate { .. }
        | Command::LaunchStart { .. }
        | Command::LaunchUpdate { .. }
        | Command::LaunchFinish { .. }
        | Command::MdInit { .. }
        | Command::PageMove { .. }
        | Command::Reclaim { .. } => None,
    }
}

// What a command opens, that does.
#[tactic(auto, unfolding(snp_model::specs::Sealing::sealing_of))]
fn opening_of(command: &Command) -> Option<Sealing>
    ensures { is_opened command.now ≡ true → option_map sealing_by result ≡ sealing_of command.now }
{
    match *command {
        Command::SwapIn {
            guest,
            source,
            target,
            metadata,
            entry,
        } => opened(What::GuestPage, guest, source, target, metadata, entry),
        Command::MdIn {
            guest,
            source,
            target,
            metadata,
            entry,
        } => opened(What::MetadataPage, guest, source, target, metadata, entry),
        Command::MdRootIn {
            guest,
            source,
            target,
        } => by_root(Way::In, guest, source, target),
        Command::GctxCreate { .. }
        | Command::Activate { .. }
        | Command::LaunchStart { .. }
        | Command::LaunchUpdate { .. }
        | Command::LaunchFinish { .. }
        | Command::MdInit { .. }
        | Command::PageMove { .. }
        | Command::SwapOut { .. }
        | Command::Reclaim { .. }
        | Command::MdOut { .. }
        | Command::MdRootOut { .. } => None,
    }
}

// A page that is sealed under an entry of a metadata page.
fn sealed(
    what: What,
    guest: u8,
    source: u64,
    target: u64,
    metadata: u64,
    number: u8,
) -> Option<Sealing>
    ensures { option_map sealing_by result ≡ Some (SealOut (what_by what) guest source target (OfEntry metadata number)) }
{
    let slot = Slot::OfEntry { metadata, number };
    Some(Sealing {
        way: Way::Out,
        what,
        guest,
        source,
        target,
        slot,
    })
}

// A page that is opened with an entry of a metadata page.
fn opened(
    what: What,
    guest: u8,
    source: u64,
    target: u64,
    metadata: u64,
    number: u8,
) -> Option<Sealing>
    ensures { option_map sealing_by result ≡ Some (SealIn (what_by what) guest source target (OfEntry metadata number)) }
{
    let slot = Slot::OfEntry { metadata, number };
    Some(Sealing {
        way: Way::In,
        what,
        guest,
        source,
        target,
        slot,
    })
}

// A metadata page whose entry is the root of its guest's context.
fn by_root(way: Way, guest: u8, source: u64, target: u64) -> Option<Sealing>
    ensures { option_map sealing_by result ≡ Some (sealing_by (record { way = way; what = What.MetadataPage; guest = guest; source = source; target = target; slot = Slot.OfRoot })) }
{
    let what = What::MetadataPage;
    let slot = Slot::OfRoot;
    Some(Sealing {
        way,
        what,
        guest,
        source,
        target,
        slot,
    })
}
