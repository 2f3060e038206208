//! The locks of every command of the firmware, the pages that SNP_GCTX_CREATE and SNP_LAUNCH_UPDATE make, and what each
//! commit makes of the guest's context (after the SEV-SNP firmware ABI 56860, chapter 8).
//!
//! The pages of the other commands are those of `fw_move`, `fw_reclaim`, `fw_swap` and `meta_page`; a command of the root
//! sets it by `GuestContext::set_root`.
#![tactic(auto)]

mod commit;
mod context;
mod page;
mod status;
#[cfg(test)]
mod tests;

pub use commit::{context_commit, page_commit};
pub use context::context_lock;
pub use page::{page_lock, page_test};
