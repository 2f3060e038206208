/// A command to the SEV firmware (SEV-SNP firmware ABI 56860, chapter 8). Guests are numbered from 1,
/// frames are any number, and ASIDs are below 1024.
#[derive(Clone, Copy, Debug, PartialEq, Eq)]
pub enum Command {
    /// SNP_GCTX_CREATE: `frame` becomes the guest's context page.
    GctxCreate {
        guest: u8,
        frame: u64,
    },
    /// SNP_ACTIVATE: binds the guest to its ASID.
    Activate {
        guest: u8,
        asid: u16,
    },
    /// SNP_LAUNCH_START.
    LaunchStart {
        guest: u8,
    },
    /// SNP_LAUNCH_UPDATE: measures a page. `perms` are those of VMPL1, VMPL2 and VMPL3.
    LaunchUpdate {
        guest: u8,
        frame: u64,
        page_type: u8,
        imi: bool,
        perms: [u8; 3],
    },
    /// SNP_LAUNCH_FINISH.
    LaunchFinish {
        guest: u8,
    },
    /// SNP_PAGE_MD_INIT: `frame` becomes a metadata page.
    MdInit {
        frame: u64,
    },
    /// SNP_PAGE_MOVE: moves a page of the guest from one frame to another.
    PageMove {
        guest: u8,
        source: u64,
        target: u64,
    },
    /// SNP_PAGE_SWAP_OUT: seals a page of the guest, under an entry below 64 of a metadata page.
    SwapOut {
        guest: u8,
        source: u64,
        target: u64,
        metadata: u64,
        entry: u8,
    },
    /// SNP_PAGE_SWAP_IN: opens a sealed page, whose entry is below 64.
    SwapIn {
        guest: u8,
        source: u64,
        target: u64,
        metadata: u64,
        entry: u8,
    },
    /// SNP_PAGE_RECLAIM.
    Reclaim {
        frame: u64,
    },
    /// Seals a metadata page whose entries are the guest's, under an entry below 64 of another metadata page (this
    /// project's own, as are the next three).
    MdOut {
        guest: u8,
        source: u64,
        target: u64,
        metadata: u64,
        entry: u8,
    },
    /// Opens a sealed metadata page, whose entry is below 64.
    MdIn {
        guest: u8,
        source: u64,
        target: u64,
        metadata: u64,
        entry: u8,
    },
    /// Seals a metadata page whose entries are the guest's, under the root entry of its context.
    MdRootOut {
        guest: u8,
        source: u64,
        target: u64,
    },
    /// Opens the metadata page that is sealed under the root entry.
    MdRootIn {
        guest: u8,
        source: u64,
        target: u64,
    },
}
