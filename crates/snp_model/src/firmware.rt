/// The state of a page (SEV-SNP firmware ABI 56860, 5.2).
#[derive(Clone, Copy, Debug, PartialEq, Eq)]
pub enum PageState {
    Hypervisor,
    PreGuest,
    PreSwap,
    GuestInvalid,
    GuestValid,
    Reclaim,
    Firmware,
    Context,
    Metadata,
}

/// Which of a firmware command's pages is meant. A command with one page has it as its target.
#[derive(Clone, Copy, Debug, PartialEq, Eq)]
pub enum Part {
    Source,
    Target,
    Metadata,
}

/// The state of a guest's context (after SEV-SNP firmware ABI 56860, 4.1).
#[derive(Clone, Copy, Debug, PartialEq, Eq)]
pub enum GuestState {
    /// There is no context.
    Absent,
    /// The context was made.
    Init,
    /// The launch goes on.
    Launching,
    /// The guest may run.
    Running,
}

/// An entry of a metadata page: what is kept of a page that was swapped out. The layout is this
/// project's own.
#[derive(Clone, Copy, Debug, PartialEq, Eq)]
pub struct MetaEntry {
    /// 1 for a guest page, 2 for a metadata page.
    pub kind: u8,
    /// The page's VMSA bit.
    pub vmsa: bool,
    /// Whether the page was validated.
    pub validated: bool,
    /// The guest's ASID.
    pub asid: u16,
    /// The guest page number.
    pub gpn: u64,
    /// The permissions of VMPL0 to VMPL3.
    pub perms: [u8; 4],
    /// The counter that the page was sealed under.
    pub iv: u64,
    /// The tag of the sealed page.
    pub tag: [u8; 16],
}
