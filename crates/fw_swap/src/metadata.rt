ghost use Rattle.std.specs.Prelude.{◌≡◌, ◌<◌, Ok, IfSome};
ghost use Rattle.snp_model.specs.Firmware.{entry_of};
ghost use Rattle.snp_model.specs.FirmwareLocks.{entry_refusal, firmware_answer, in_entry_refusal, out_entry_refusal};
ghost use Rattle.snp_model.specs.RegionWords.{page_at};

use meta_page::entry;
use phys_memory::Region;
use rmp_table::RmpRegion;
use snp_model::{Command, FwRefusal, MetaEntry};

/// The kind of an entry of a guest page.
const GUEST_PAGE: u8 = 1;

/// The kind of an entry of a metadata page.
const METADATA_PAGE: u8 = 2;

/// INVALID_MDATA_ENTRY (SEV-SNP firmware ABI 56860, 6).
const INVALID_MDATA_ENTRY: u16 = 0x1b;

/// INVALID_PAGE_OWNER (SEV-SNP firmware ABI 56860, 6).
const INVALID_PAGE_OWNER: u16 = 0x1c;

/// The test of the entry, below 64, that a command names of its metadata page, which is the last one of the page's lock:
/// for a page that is to be sealed it isn't in use (0x1B), for one that is to be opened it is in use and of the command's
/// kind (0x1B) and has the guest's ASID (0x1C). A command that names no entry passes.
#[tactic(auto, unfolding(snp_model::specs::FirmwareLocks::entry_refusal, snp_model::specs::Firmware::entry_of))]
pub fn entry_test(
    memory: &Region,
    _rmp: &RmpRegion,
    page: usize,
    command: &Command,
    asid: u16,
) -> Result<(), FwRefusal>
    requires page_below { page < 512 }
    requires entry_below { IfSome (entry_of command.now) (λ number. number < 64) }
    ensures answer { result ≡ firmware_answer (entry_refusal command.now asid (page_at memory.now page)) }
{
    match command {
        Command::SwapOut { entry: number, .. } | Command::MdOut { entry: number, .. } => {
            out_entry(&entry(memory, page, *number as usize))
        }
        Command::SwapIn { entry: number, .. } => {
            in_entry(GUEST_PAGE, asid, &entry(memory, page, *number as usize))
        }
        Command::MdIn { entry: number, .. } => {
            in_entry(METADATA_PAGE, asid, &entry(memory, page, *number as usize))
        }
        Command::GctxCreate { .. }
        | Command::Activate { .. }
        | Command::LaunchStart { .. }
        | Command::LaunchUpdate { .. }
        | Command::LaunchFinish { .. }
        | Command::MdInit { .. }
        | Command::PageMove { .. }
        | Command::Reclaim { .. }
        | Command::MdRootOut { .. }
        | Command::MdRootIn { .. } => Ok(()),
    }
}

// The entry that a page is to be sealed under isn't in use.
fn out_entry(entry: &Option<MetaEntry>) -> Result<(), FwRefusal>
    ensures { result ≡ firmware_answer (out_entry_refusal entry.now) }
{
    match entry {
        Some(_) => Err(FwRefusal::Status(INVALID_MDATA_ENTRY)),
        None => Ok(()),
    }
}

// The entry that a page is to be opened with is in use, of this kind, and has this ASID.
#[tactic(auto, unfolding(snp_model::specs::FirmwareLocks::in_entry_refusal))]
fn in_entry(kind: u8, asid: u16, entry: &Option<MetaEntry>) -> Result<(), FwRefusal>
    ensures { result ≡ firmware_answer (in_entry_refusal kind asid entry.now) }
{
    match entry {
        None => Err(FwRefusal::Status(INVALID_MDATA_ENTRY)),
        Some(entry) => {
            if entry.kind != kind {
                Err(FwRefusal::Status(INVALID_MDATA_ENTRY))
            } else if entry.asid != asid {
                Err(FwRefusal::Status(INVALID_PAGE_OWNER))
            } else {
                Ok(())
            }
        }
    }
}
