ghost use Rattle.std.specs.Prelude.{◌≡◌, ℕ, ◌<◌, ◌≤◌, eqb, length, map, replicate, slice_index_or, slice_set, vec_capacity, Some, None, IfOk, IfSome};
ghost use Rattle.std.specs.List.{All, Contains, IsDistinct};
ghost use Rattle.snp_model.specs.Entries.{released};
ghost use Rattle.snp_model.specs.Locks.{range_holder};
ghost use Rattle.rmp_table.specs.Locks.{holder_among, slots_of};

use std::alloc::{AllocError, Global};
use std::marker::Model;

/// A lock of one frame.
#[derive(Clone, Copy, Debug)]
pub(crate) struct FrameLock {
    /// The frame's number within its region, below 512.
    pub(crate) slot: usize,
    /// The actor that holds it, numbered from 1.
    pub(crate) holder: u32,
}

/// The locks of a region's 512 frames, of which few stand at a time. Contracts see the holder of each frame's lock.
#[derive(Debug, Drop)]
pub(crate) struct Locks {
    // The actor that holds the locks of all frames.
    every: Option<u32>,
    // Otherwise those that stand, each of one frame, with room for all.
    single: Vec<FrameLock>,
}

impl Model for Locks {
    ghost use Rattle.std.specs.Prelude.{ℕ, List, Option, vec_capacity};
    ghost use Rattle.rmp_table.specs.Locks.{holders_by, AreLocks};

    ghost Value = { List (Option ℕ) };

    ghost view = { λ locks. holders_by locks.every locks.single.items };

    ghost invariant = { λ locks. AreLocks locks.every locks.single.items (vec_capacity locks.single) };
}

impl Locks {
    /// No lock stands.
    pub(crate) fn none(alloc: Global) -> Result<Locks, AllocError>
        ensures { IfOk result (λ locks. locks ≡ replicate 512 None) }
    {
        Ok(Locks {
            every: None,
            single: Vec::with_capacity(alloc, 512)?,
        })
    }

    /// There are 512 frames.
    pub(crate) fn whole(&self)
        ensures { length self.now ≡ 512 }
    {
        let _ = &self.every;
    }

    /// The holder of a frame's lock.
    pub(crate) fn holder(&self, slot: usize) -> Option<u32>
        requires { slot < 512 }
        ensures { result ≡ slice_index_or self.now slot None }
    {
        match self.every {
            Some(holder) => Some(holder),
            None => holder_among(&self.single, slot),
        }
    }

    /// The holder of the lowest frame that is locked.
    pub(crate) fn lowest(&self) -> Option<u32>
        ensures { result ≡ range_holder (λ slot. slice_index_or self.now slot None) 0 512 }
    {
        match self.every {
            Some(holder) => Some(holder),
            None => lowest_among(&self.single),
        }
    }

    /// Locks a frame that isn't locked.
    pub(crate) fn lock(&mut self, slot: usize, actor: u32)
        requires slot_below { slot < 512 }
        requires unlocked { slice_index_or self.old slot None ≡ None }
        ensures { self.new ≡ slice_set self.old slot (Some actor) }
    {
        self.single.push_reserved(FrameLock {
            slot,
            holder: actor,
        });
    }

    /// Locks all frames, of which none is locked.
    pub(crate) fn lock_all(&mut self, actor: u32)
        requires { (slot : ℕ) → slot < 512 → slice_index_or self.old slot None ≡ None }
        ensures { self.new ≡ replicate 512 (Some actor) }
    {
        self.every = Some(actor);
    }

    /// Releases the locks of an actor.
    pub(crate) fn unlock(&mut self, actor: u32)
        ensures { self.new ≡ map (released actor) self.old }
    {
        match self.every {
            Some(holder) => {
                if holder == actor {
                    self.every = None;
                }
            }
            None => self.single.retain(|lock| lock.holder != actor),
        }
    }
}

// Who holds a frame's lock.
#[tactic(auto, unfolding(crate::specs::Locks::holder_among))]
fn holder_among(locks: &[FrameLock], slot: usize) -> Option<u32>
    ensures { result ≡ holder_among locks.now slot }
{
    'locks: for lock in locks {
        if lock.slot == slot {
            return Some(lock.holder);
        }
    }
    None
}

// Who holds the lock of the lowest frame.
fn lowest_among(locks: &[FrameLock]) -> Option<u32>
    requires once { IsDistinct eqb (slots_of locks.now) }
    requires below { All (λ lock. lock.slot < 512) locks.now }
    ensures { result ≡ range_holder (holder_among locks.now) 0 512 }
{
    match lowest_lock(locks) {
        Some(lock) => Some(lock.holder),
        None => None,
    }
}

// The lock of the lowest frame.
fn lowest_lock(locks: &[FrameLock]) -> Option<&FrameLock>
    ensures none { result ≡ None → length locks.now ≡ 0 }
    ensures among { IfSome result (λ lock. Contains locks.now lock.now) }
    ensures lowest { IfSome result (λ lock. All (λ other. lock.now.slot ≤ other.slot) locks.now) }
{
    locks.iter().min_by_key(|lock| lock.slot)
}
