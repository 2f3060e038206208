//! Statuses of refused locks (SEV-SNP firmware ABI 56860, 6).

pub(crate) const INVALID_GUEST_STATE: u16 = 0x02;

pub(crate) const ASID_OWNED: u16 = 0x0c;

pub(crate) const INVALID_PARAM: u16 = 0x16;

pub(crate) const INVALID_PAGE_SIZE: u16 = 0x19;

pub(crate) const INVALID_PAGE_STATE: u16 = 0x1a;

pub(crate) const INVALID_MDATA_ENTRY: u16 = 0x1b;

pub(crate) const INVALID_PAGE_OWNER: u16 = 0x1c;

pub(crate) const AEAD_OFLOW: u16 = 0x1d;
