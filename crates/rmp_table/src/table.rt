ghost use Rattle.std.specs.Prelude.{◌≡◌, ◌≢◌, ℕ, ◌%◌, ◌<◌, length, map, Some, None, replicate, slice_set, true, IfOk, IfSome, IsOk, IsErr};
ghost use Rattle.std.specs.List.{range_with_len};
ghost use Rattle.snp_model.specs.declared.entry.PageSize.TheVariants.{Small, Large};
ghost use Rattle.snp_model.specs.Facts.{free_entry, page_base};
ghost use Rattle.snp_model.specs.Entries.{HasOneHolder, IsOnePage, IsRegionEntry, IsTable, facts_at, facts_within, holder_at, lock_answer, with_entry, with_lock, without_locks};
ghost use Rattle.snp_model.specs.Locks.{page_lock, range_holder, range_lock};
ghost use Rattle.snp_model.specs.RmpUpdate.{smashed_facts};

use crate::locks::Locks;
use snp_model::{InUse, PageSize, RmpEntry};
use std::alloc::{AllocError, Global};
use std::marker::Model;

/// The entries and locks of a region's 512 frames. Contracts see the facts of each frame, and the holder of
/// each frame's lock.
#[derive(Debug, Drop)]
pub struct RmpRegion {
    // Whether the region is one page of 2 MB, whose entry is the first, or 512 pages of 4 KB.
    size: PageSize,
    entries: Vec<RmpEntry>,
    locks: Locks,
}

impl Model for RmpRegion {
    ghost use Rattle.snp_model.specs.Entries.{Entries};
    ghost use Rattle.rmp_table.specs.Stored.{AreStored, facts_by};

    ghost Value = { Entries };

    ghost view = { λ table. record { facts = facts_by table.size table.entries.items; holders = table.locks } };

    ghost invariant = { λ table. AreStored table.size table.entries.items table.locks };
}

impl RmpRegion {
    /// A region whose frames are all free and unlocked.
    pub fn free(alloc: Global) -> Result<RmpRegion, AllocError>
        ensures facts { IfOk result (λ rmp. rmp.facts ≡ replicate 512 free_entry) }
        ensures unlocked { IfOk result (λ rmp. rmp.holders ≡ replicate 512 None) }
        ensures one_holder { IfOk result HasOneHolder }
    {
        Ok(RmpRegion {
            size: PageSize::Small,
            entries: vec![in alloc; RmpEntry::free(); 512]?,
            locks: Locks::none(alloc)?,
        })
    }

    /// There are 512 frames, of pages of 4 KB or of one page of 2 MB.
    pub fn whole(&self)
        ensures { IsTable self.now }
    {
        let _ = &self.entries;
    }

    /// The facts of a frame.
    #[inline(always)]
    pub fn effective(&self, slot: usize) -> RmpEntry
        requires { slot < 512 }
        ensures { result ≡ facts_at self.now slot }
    {
        match self.size {
            PageSize::Small => by_fields(&self.entries[slot]),
            PageSize::Large => within(&self.entries[0], slot),
        }
    }

    /// The holder of the lock of a frame's page.
    pub fn holder(&self, slot: usize) -> Option<u32>
        requires { slot < 512 }
        ensures { result ≡ holder_at self.now slot }
    {
        self.locks.holder(slot)
    }

    /// The holder of the lowest frame's lock, of those that stand.
    pub fn lowest_holder(&self) -> Option<u32>
        ensures lowest { result ≡ range_holder (holder_at self.now) 0 512 }
        ensures held { IfSome result (λ holder. (slot : ℕ) × (slot < 512) × (holder_at self.now slot ≡ Some holder)) }
    {
        self.locks.lowest()
    }

    /// The facts of the first frame of a frame's page, which are the page's entry.
    pub fn page_entry(&self, slot: usize) -> RmpEntry
        requires { slot < 512 }
        ensures entry { result ≡ facts_at self.now (page_base (facts_at self.now slot).size slot) }
        ensures size { result.size ≡ (facts_at self.now slot).size }
        ensures large { result.size ≡ Large → IsOnePage self.now × (result ≡ facts_at self.now 0) }
    {
        match self.size {
            PageSize::Small => self.effective(slot),
            PageSize::Large => self.effective(0),
        }
    }

    /// Locks a frame's page. InUse where another actor holds the lock; then nothing is changed.
    pub fn lock(&mut self, slot: usize, actor: u32) -> Result<(), InUse>
        requires slot_below { slot < 512 }
        requires not_held { holder_at self.old slot ≢ Some actor }
        ensures answer { result ≡ lock_answer (holder_at self.old slot) }
        ensures another { (holder : ℕ) → result ≡ Err (record { holder = holder }) → holder ≢ actor }
        ensures facts { self.new.facts ≡ self.old.facts }
        ensures locked { IsOk result → let lock = page_lock (facts_at self.old slot).size slot in holder_at self.new ≡ with_lock lock actor (holder_at self.old) }
        ensures refused { IsErr result → self.new ≡ self.old }
    {
        match self.locks.holder(slot) {
            Some(holder) => Err(InUse { holder }),
            None => {
                match self.size {
                    PageSize::Small => self.locks.lock(slot, actor),
                    PageSize::Large => self.locks.lock_all(actor),
                }
                Ok(())
            }
        }
    }

    /// Locks every page. InUse where some page is locked, with the holder of the lowest frame's lock; then
    /// nothing is changed.
    pub fn lock_all(&mut self, actor: u32) -> Result<(), InUse>
        requires none_held { (slot : ℕ) → slot < 512 → holder_at self.old slot ≢ Some actor }
        ensures answer { result ≡ lock_answer (range_holder (holder_at self.old) 0 512) }
        ensures another { (holder : ℕ) → result ≡ Err (record { holder = holder }) → holder ≢ actor }
        ensures facts { self.new.facts ≡ self.old.facts }
        ensures locked { IsOk result → holder_at self.new ≡ with_lock (range_lock Large 0) actor (holder_at self.old) }
        ensures refused { IsErr result → self.new ≡ self.old }
    {
        match self.locks.lowest() {
            Some(holder) => Err(InUse { holder }),
            None => {
                self.locks.lock_all(actor);
                Ok(())
            }
        }
    }

    /// Releases every lock of an actor.
    pub fn unlock(&mut self, actor: u32)
        ensures facts { self.new.facts ≡ self.old.facts }
        ensures released { holder_at self.new ≡ without_locks actor (holder_at self.old) }
    {
        self.locks.unlock(actor);
    }

    /// Writes the entry of a page: of 4 KB, or of the region's whole page of 2 MB, at slot 0. The locks stay.
    pub fn write_entry(&mut self, slot: usize, entry: RmpEntry)
        requires slot_below { slot < 512 }
        requires small { entry.size ≡ Small → (facts_at self.old slot).size ≡ Small }
        requires large { entry.size ≡ Large → IsRegionEntry self.old slot entry }
        ensures written { facts_at self.new ≡ with_entry slot entry (facts_at self.old) }
        ensures others { entry.size ≡ Small → self.new.facts ≡ slice_set self.old.facts slot entry }
        ensures locks { self.new.holders ≡ self.old.holders }
    {
        self.entries[slot] = entry;
        self.size = entry.size;
    }

    /// Writes the entry of the page in which a frame stands. Its size stays, and so do the locks.
    pub fn write_page(&mut self, slot: usize, entry: RmpEntry)
        requires slot_below { slot < 512 }
        requires size { entry.size ≡ (facts_at self.old slot).size }
        requires assigned { entry.size ≡ Large → entry.assigned ≡ true }
        requires aligned { entry.size ≡ Large → entry.gpn % 512 ≡ 0 }
        ensures written { facts_at self.new ≡ with_entry (page_base entry.size slot) entry (facts_at self.old) }
        ensures locks { self.new.holders ≡ self.old.holders }
    {
        self.whole();
        match entry.size {
            PageSize::Small => self.write_entry(slot, entry),
            PageSize::Large => self.write_entry(0, entry),
        }
    }

    /// Makes every frame free. The locks stay.
    pub fn free_all(&mut self)
        ensures facts { (slot : ℕ) → facts_at self.new slot ≡ free_entry }
        ensures locks { self.new.holders ≡ self.old.holders }
    {
        self.entries.fill(RmpEntry::free());
        self.size = PageSize::Small;
    }

    /// Makes 512 pages of 4 KB of the region's page of 2 MB. The locks stay, and each has the page's holder.
    pub fn smash(&mut self)
        requires { (facts_at self.old 0).size ≡ Large }
        ensures facts { (slot : ℕ) → facts_at self.new slot ≡ smashed_facts (facts_at self.old slot) }
        ensures locks { self.new.holders ≡ self.old.holders }
    {
        let head = RmpEntry {
            size: PageSize::Small,
            ..self.entries[0]
        };
        spread(&mut self.entries, &head);
        self.size = PageSize::Small;
    }
}

// Writes the facts of each frame of a page with this entry.
fn spread(entries: &mut Vec<RmpEntry>, head: &RmpEntry)
    requires count { length entries.old.items ≡ 512 }
    requires aligned { head.now.gpn % 512 ≡ 0 }
    ensures { entries.new.items ≡ map (facts_within head.now) (range_with_len 0 512) }
{
    'slots: for slot in 0..512 {
        entries[slot] = within(head, slot);
    }
}

// The same entry. It is copied field by field, since a copy of the whole copies the unused bytes behind its fields too, and
// reading those again waits for their writes.
#[inline(always)]
fn by_fields(entry: &RmpEntry) -> RmpEntry
    ensures { result ≡ entry.now }
{
    RmpEntry {
        assigned: entry.assigned,
        size: entry.size,
        immutable: entry.immutable,
        gpn: entry.gpn,
        asid: entry.asid,
        vmsa: entry.vmsa,
        validated: entry.validated,
        perms: entry.perms,
        kind: entry.kind,
    }
}

// The facts of a frame of a page with this entry.
fn within(head: &RmpEntry, slot: usize) -> RmpEntry
    requires slot_below { slot < 512 }
    requires aligned { head.now.gpn % 512 ≡ 0 }
    ensures { result ≡ facts_within head.now slot }
{
    RmpEntry {
        gpn: head.gpn + slot as u64,
        ..*head
    }
}
