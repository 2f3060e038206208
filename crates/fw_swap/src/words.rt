ghost use Rattle.std.specs.Prelude.{◌≡◌, ◌<◌, Ok, IfSome};
ghost use Rattle.snp_model.specs.Firmware.{entry_of};
ghost use Rattle.snp_model.specs.FirmwareLocks.{firmware_answer, owned_refusal, page_extra, source_refusal};
ghost use Rattle.snp_model.specs.Metadata.{owned};
ghost use Rattle.snp_model.specs.RegionWords.{page_at};

use crate::metadata::entry_test;
use crate::ownership::is_owned;
use phys_memory::Region;
use rmp_table::RmpRegion;
use snp_model::{Command, FwRefusal, Part};

/// INVALID_PAGE_OWNER (SEV-SNP firmware ABI 56860, 6).
const INVALID_PAGE_OWNER: u16 = 0x1c;

/// The test of a page's words, which is the last one of its lock: in a metadata page the entry, below 64, that the command
/// names (`entry_test`), and in a metadata page that is to be sealed all entries in use, which have the guest's ASID (0x1C).
/// Other pages pass.
#[tactic(auto, unfolding(snp_model::specs::FirmwareLocks::page_extra))]
pub fn words_test(
    memory: &Region,
    rmp: &RmpRegion,
    page: usize,
    command: &Command,
    part: Part,
    asid: u16,
) -> Result<(), FwRefusal>
    requires page_below { page < 512 }
    requires entry_below { IfSome (entry_of command.now) (λ number. number < 64) }
    ensures answer { result ≡ firmware_answer (page_extra command.now part asid (page_at memory.now page)) }
{
    match part {
        Part::Source => source_test(memory, page, command, asid),
        Part::Target => Ok(()),
        Part::Metadata => entry_test(memory, rmp, page, command, asid),
    }
}

// The test of the words of a command's source.
#[tactic(auto, unfolding(snp_model::specs::FirmwareLocks::source_refusal))]
fn source_test(memory: &Region, page: usize, command: &Command, asid: u16) -> Result<(), FwRefusal>
    requires page_below { page < 512 }
    ensures { result ≡ firmware_answer (source_refusal command.now asid (page_at memory.now page)) }
{
    match command {
        Command::MdOut { .. } | Command::MdRootOut { .. } => owned_test(memory, page, asid),
        Command::GctxCreate { .. }
        | Command::Activate { .. }
        | Command::LaunchStart { .. }
        | Command::LaunchUpdate { .. }
        | Command::LaunchFinish { .. }
        | Command::MdInit { .. }
        | Command::PageMove { .. }
        | Command::SwapOut { .. }
        | Command::SwapIn { .. }
        | Command::Reclaim { .. }
        | Command::MdIn { .. }
        | Command::MdRootIn { .. } => Ok(()),
    }
}

// The entries in use of a metadata page have an ASID.
#[tactic(auto, unfolding(snp_model::specs::FirmwareLocks::owned_refusal))]
fn owned_test(memory: &Region, page: usize, asid: u16) -> Result<(), FwRefusal>
    requires { page < 512 }
    ensures { result ≡ firmware_answer (owned_refusal asid (page_at memory.now page)) }
{
    if owned_page(memory, page, asid) {
        Ok(())
    } else {
        Err(FwRefusal::Status(INVALID_PAGE_OWNER))
    }
}

// Whether every entry in use of a page has an ASID.
fn owned_page(memory: &Region, page: usize, asid: u16) -> bool
    requires { page < 512 }
    ensures { result ≡ owned (page_at memory.now page) asid }
{
    memory.whole();
    for number in 0..64 {
        if !is_owned(memory.load(page, 8 * number), asid) {
            return false;
        }
    }
    true
}
