ghost use Rattle.std.specs.Prelude.{◌≡◌, ◌≢◌, ℕ, ◌+◌, ◌%◌, ◌≤◌, ◌<◌, true, false, replicate};
ghost use Rattle.snp_model.specs.declared.entry.PageSize.TheVariants.{Small, Large};
ghost use Rattle.snp_model.specs.Entries.{facts_at, holder_at, region_pages, without_locks};
ghost use Rattle.snp_model.specs.Facts.{free_entry, frames_in};
ghost use Rattle.snp_model.specs.Locks.{over, range_lock};
ghost use Rattle.snp_model.specs.RegionWords.{page_at};
ghost use Rattle.snp_model.specs.RmpUpdate.{assigned_facts, immutable_kind, makes_immutable, pages_updated, updated_facts};
ghost use Rattle.snp_model.specs.Verdicts.{same_size};
ghost use Rattle.rmp_update.specs.Regions.{AreCleared, AreUpdated, HoldsRange, IsAccepted, IsRange, IsTested, cleared, first_slot};

use phys_memory::Region;
use rmp_table::RmpRegion;
use snp_model::{Kind, PageSize, RmpEntry, Update};

/// Changes the range of RMPUPDATE in its region by the first case that applies, and releases the actor's locks.
/// Takes no memory.
pub fn update_commit(memory: &mut Region, rmp: &mut RmpRegion, update: &Update, actor: u32)
    requires accepted { IsAccepted update.now }
    requires held { HoldsRange rmp.old update.now actor }
    requires tested { IsTested rmp.old update.now }
    ensures pages { let lock = range_lock update.now.size (first_slot update.now) in region_pages memory.new rmp.new ≡ pages_updated update.now lock (region_pages memory.old rmp.old) }
    ensures locks { holder_at rmp.new ≡ without_locks actor (holder_at rmp.old) }
{
    let slot = (update.frame % 512) as usize;
    change_words(memory, rmp, slot, update);
    change_entries(rmp, slot, update);
    rmp.unlock(actor);
}

// Changes the words of the range: those of assigned frames become zero, but for a page that only becomes immutable.
fn change_words(memory: &mut Region, rmp: &RmpRegion, slot: usize, update: &Update)
    requires { slot + frames_in update.now.size ≤ 512 }
    ensures { AreUpdated rmp.now update.now slot memory.old memory.new }
{
    if makes_immutable(update, &rmp.effective(slot)) {
        return;
    }
    clear_pages(memory, rmp, slot, frames_in(update.size));
}

// Fills the assigned ones of so many pages with zero words.
fn clear_pages(memory: &mut Region, rmp: &RmpRegion, first: usize, count: usize)
    requires { first + count ≤ 512 }
    ensures { AreCleared rmp.now first count memory.old memory.new }
{
    'pages: for page in first..first + count {
        clear_page(memory, rmp, page);
    }
}

// Fills a page with zero words where it is assigned.
fn clear_page(memory: &mut Region, rmp: &RmpRegion, page: usize)
    requires { page < 512 }
    ensures here { page_at memory.new page ≡ cleared (facts_at rmp.now page).assigned (page_at memory.old page) }
    ensures there { (k : ℕ) → k ≢ page → page_at memory.new k ≡ page_at memory.old k }
{
    memory.whole();
    if rmp.effective(page).assigned {
        memory.page_fill(page, 0);
    }
}

// Changes the entries of the range.
fn change_entries(rmp: &mut RmpRegion, slot: usize, update: &Update)
    requires { IsRange rmp.old update.now slot }
    ensures facts { facts_at rmp.new ≡ over slot (frames_in update.now.size) (updated_facts update.now (facts_at rmp.old slot)) (facts_at rmp.old) }
    ensures locks { rmp.new.holders ≡ rmp.old.holders }
{
    rmp.whole();
    let first = rmp.effective(slot);
    if makes_immutable(update, &first) {
        rmp.write_page(slot, immutable(&first, update.asid));
        return;
    }
    if !update.assigned {
        free_range(rmp, slot, update.size);
        return;
    }
    rmp.write_entry(slot, assigned(update));
}

// Makes the frames of a range free.
fn free_range(rmp: &mut RmpRegion, slot: usize, size: PageSize)
    requires slot_below { slot < 512 }
    requires small { size ≡ Small → (facts_at rmp.old slot).size ≡ Small }
    requires first { size ≡ Large → slot ≡ 0 }
    ensures facts { facts_at rmp.new ≡ over slot (frames_in size) (λ place old. free_entry) (facts_at rmp.old) }
    ensures locks { rmp.new.holders ≡ rmp.old.holders }
{
    rmp.whole();
    match size {
        PageSize::Small => rmp.write_entry(slot, free()),
        PageSize::Large => rmp.free_all(),
    }
}

// The entry of a free frame.
#[tactic(auto, unfolding(snp_model::specs::Facts::free_entry))]
fn free() -> RmpEntry
    ensures free { result ≡ free_entry }
    ensures small { result.size ≡ Small }
{
    RmpEntry::free()
}

// An entry that has become immutable.
fn immutable(entry: &RmpEntry, asid: u16) -> RmpEntry
    ensures { result ≡ record entry.now { immutable = true; kind = immutable_kind asid entry.now.kind } }
{
    RmpEntry {
        immutable: true,
        kind: immutable_kind(asid, entry.kind),
        ..*entry
    }
}

// The kind of a page with this ASID that becomes immutable.
fn immutable_kind(asid: u16, kind: Kind) -> Kind
    ensures { result ≡ immutable_kind asid kind }
{
    if asid == 0 { Kind::Firmware } else { kind }
}

// The entry of a page that becomes assigned.
#[tactic(auto, unfolding(snp_model::specs::RmpUpdate::assigned_facts))]
fn assigned(update: &Update) -> RmpEntry
    ensures entry { result ≡ assigned_facts update.now 0 }
    ensures size { result.size ≡ update.now.size }
    ensures assigned { result.assigned ≡ true }
    ensures gpn { result.gpn ≡ update.now.gpn }
{
    RmpEntry {
        assigned: true,
        size: update.size,
        immutable: update.immutable,
        gpn: update.gpn,
        asid: update.asid,
        vmsa: false,
        validated: false,
        perms: [if update.asid == 0 { 0 } else { 15 }, 0, 0, 0],
        kind: if update.immutable {
            immutable_kind(update.asid, Kind::Plain)
        } else {
            Kind::Plain
        },
    }
}

// Whether the commit makes a page immutable and leaves all else: it is assigned as asked already.
#[tactic(auto, unfolding(snp_model::specs::RmpUpdate::makes_immutable))]
fn makes_immutable(update: &Update, first: &RmpEntry) -> bool
    ensures test { result ≡ makes_immutable update.now first.now }
    ensures assigned { result ≡ true → first.now.assigned ≡ true }
    ensures asked { result ≡ true → update.now.assigned ≡ true }
    ensures gpn { result ≡ true → first.now.gpn ≡ update.now.gpn }
    ensures size { result ≡ true → first.now.size ≡ update.now.size }
{
    first.assigned
        && first.asid == update.asid
        && first.gpn == update.gpn
        && same_size(first.size, update.size)
        && update.assigned
        && !first.immutable
        && update.immutable
}

// Whether two sizes are the same.
fn same_size(one: PageSize, other: PageSize) -> bool
    ensures test { result ≡ same_size one other }
    ensures same { result ≡ true → one ≡ other }
{
    match one {
        PageSize::Small => match other {
            PageSize::Small => true,
            PageSize::Large => false,
        },
        PageSize::Large => match other {
            PageSize::Small => false,
            PageSize::Large => true,
        },
    }
}

// How many frames a page has.
fn frames_in(size: PageSize) -> usize
    ensures { result ≡ frames_in size }
{
    match size {
        PageSize::Small => 1,
        PageSize::Large => 512,
    }
}
