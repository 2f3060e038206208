ghost use Rattle.std.specs.Prelude.{◌≡◌, ◌≢◌, ◌↔◌, ℕ, Some, None, IfOk, IsOk, IsErr};
ghost use Rattle.snp_model.specs.Entries.{lock_answer};
ghost use Rattle.snp_model.specs.FirmwareCommits.{counted, with_root};
ghost use Rattle.snp_model.specs.FirmwareLocks.{last_counter};
ghost use Rattle.snp_model.specs.HeldContexts.{held_by, let_go, opening_held, with_context};

use aes_block::Key256;
use launch_digest::Digest;
use snp_model::{GuestSpec, GuestState, InUse, MetaEntry};
use std::marker::Model;

/// The counter of a context's sealing nonces has come to its last value.
#[derive(Clone, Copy, Debug, PartialEq, Eq)]
pub struct Oflow;

/// A guest's context, with its lock (after the SEV-SNP firmware ABI 56860, 4.1). Contracts see the context, and the actor
/// that holds the lock.
#[derive(Drop)]
pub struct GuestContext {
    /// How far the guest's launch is.
    pub state: GuestState,
    /// Whether the guest is bound to its ASID.
    pub bound: bool,
    /// The guest's ASID, 1 to 1023.
    pub asid: u16,
    /// The counter of its sealing nonces.
    pub iv: u64,
    /// The digest of the pages launched so far.
    pub digest: Digest,
    /// How many pages were launched.
    pub pages: u32,
    /// The entry of a metadata page that was sealed under the context.
    pub root: Option<MetaEntry>,
    /// The actor that holds the lock, numbered from 1.
    pub holder: Option<u32>,
    // The guest's sealing key, with its key schedule.
    key: Key256,
}

impl Model for GuestContext {
    ghost use Rattle.snp_model.specs.HeldContexts.{HeldContext};

    ghost Value = { HeldContext };

    ghost view = { λ guest. record {
      context = record {
        state = guest.state;
        bound = guest.bound;
        asid = guest.asid;
        iv = guest.iv;
        key = guest.key;
        digest = guest.digest;
        pages = guest.pages;
        root = guest.root;
      };
      holder = guest.holder;
    } };
}

impl GuestContext {
    /// A guest's context at the opening: Running and bound where the guest is opened, else Absent and unbound.
    #[tactic(auto, unfolding(snp_model::specs::Opening::opening_context))]
    pub fn from_spec(spec: &GuestSpec) -> GuestContext
        ensures { result ≡ opening_held spec.now }
    {
        GuestContext {
            state: if spec.opened {
                GuestState::Running
            } else {
                GuestState::Absent
            },
            bound: spec.opened,
            asid: spec.asid,
            iv: spec.iv,
            digest: Digest::zero(),
            pages: 0,
            root: None,
            holder: None,
            key: Key256::new(&spec.key),
        }
    }

    /// The guest's sealing key.
    pub fn key(&self) -> &Key256
        ensures { result.now ≡ self.now.context.key }
    {
        &self.key
    }

    /// Locks the context. InUse where another actor holds the lock; then nothing is changed.
    pub fn lock(&mut self, actor: u32) -> Result<(), InUse>
        requires not_held { self.old.holder ≢ Some actor }
        ensures answer { result ≡ lock_answer self.old.holder }
        ensures another { (holder : ℕ) → result ≡ Err (record { holder = holder }) → holder ≢ actor }
        ensures locked { IsOk result → self.new ≡ held_by actor self.old }
        ensures refused { IsErr result → self.new ≡ self.old }
    {
        match self.holder {
            Some(holder) => Err(InUse { holder }),
            None => {
                self.holder = Some(actor);
                Ok(())
            }
        }
    }

    /// Releases the lock where `actor` holds it.
    pub fn unlock(&mut self, actor: u32)
        ensures { self.new ≡ let_go actor self.old }
    {
        if let Some(holder) = self.holder {
            if holder == actor {
                self.holder = None;
            }
        }
    }

    /// Gives the counter of the sealing nonces, and adds 1 to it. Oflow where the counter is the last one; then nothing
    /// is changed.
    pub fn next_iv(&mut self) -> Result<u64, Oflow>
        ensures given { IfOk result (λ iv. iv ≡ self.old.context.iv) }
        ensures grows { IsOk result → self.new ≡ with_context (counted self.old.context) self.old }
        ensures last { IsErr result ↔ (self.old.context.iv ≡ last_counter) }
        ensures refused { IsErr result → self.new ≡ self.old }
    {
        let iv = self.iv;
        if iv == u64::MAX {
            return Err(Oflow);
        }
        self.iv = iv + 1;
        Ok(iv)
    }

    /// Makes this the root entry; None says that no metadata page is sealed under the context.
    pub fn set_root(&mut self, root: Option<MetaEntry>)
        ensures { self.new ≡ with_context (with_root root self.old.context) self.old }
    {
        self.root = root;
    }
}
