ghost use Rattle.std.specs.Prelude.{◌≡◌, ◌≢◌, ◌↔◌, ◌*◌, ◌%◌, ◌<◌, ℕ, slice_index, Some, None, IsSome};
ghost use Rattle.snp_model.specs.Metadata.{cleared, entry_at, slot, with_entry, with_slot};
ghost use Rattle.snp_model.specs.RegionWords.{page_at, page_set, word_at};

use crate::fields::{entry_from, entry_words};
use phys_memory::Region;
use snp_model::MetaEntry;

/// An entry of a page; None where its first byte isn't 1.
#[tactic(auto, unfolding(snp_model::specs::Metadata::entry_at))]
pub fn entry(memory: &Region, page: usize, number: usize) -> Option<MetaEntry>
    requires page_below { page < 512 }
    requires number_below { number < 64 }
    ensures entry { result ≡ entry_at (page_at memory.now page) number }
    ensures in_use { IsSome result ↔ (word_at memory.now page (8 * number) % 256 ≡ 1) }
{
    entry_from(&slot(memory, page, number))
}

/// Writes an entry, which is then in use; all other entries stay. The entry's first byte is then 1.
#[tactic(auto, unfolding(snp_model::specs::Metadata::with_entry))]
pub fn set(memory: &mut Region, page: usize, number: usize, entry: &MetaEntry)
    requires page_below { page < 512 }
    requires number_below { number < 64 }
    ensures memory { memory.new ≡ page_set memory.old page (with_entry (page_at memory.old page) number entry.now) }
    ensures in_use { entry_at (page_at memory.new page) number ≡ Some entry.now }
    ensures others { (other : ℕ) → other ≢ number → slot (page_at memory.new page) other ≡ slot (page_at memory.old page) other }
{
    memory.whole();
    write_slot(memory, page, number, &entry_words(entry));
}

/// Clears an entry, which then isn't in use; all other entries stay. The entry is then 64 zero bytes.
#[tactic(auto, unfolding(snp_model::specs::Metadata::cleared))]
pub fn clear(memory: &mut Region, page: usize, number: usize)
    requires page_below { page < 512 }
    requires number_below { number < 64 }
    ensures memory { memory.new ≡ page_set memory.old page (cleared (page_at memory.old page) number) }
    ensures not_in_use { entry_at (page_at memory.new page) number ≡ None }
    ensures others { (other : ℕ) → other ≢ number → slot (page_at memory.new page) other ≡ slot (page_at memory.old page) other }
{
    memory.whole();
    write_slot(memory, page, number, &[0; 8]);
}

// Writes the eight words of an entry.
#[tactic(auto, using(crate::proofs::SlotLaws::region_none, crate::proofs::SlotLaws::region_more, crate::proofs::SlotLaws::region_all))]
fn write_slot(memory: &mut Region, page: usize, number: usize, words: &[u64; 8])
    requires page_below { page < 512 }
    requires number_below { number < 64 }
    ensures { memory.new ≡ page_set memory.old page (with_slot (page_at memory.old page) number words.now) }
{
    memory.whole();
    for i in 0..8 {
        memory.store(page, 8 * number + i, words[i]);
    }
}

// The eight words of an entry.
#[tactic(auto, using(snp_model::proofs::MetadataLaws::slot_of))]
fn slot(memory: &Region, page: usize, number: usize) -> [u64; 8]
    requires page_below { page < 512 }
    requires number_below { number < 64 }
    ensures words { result ≡ slot (page_at memory.now page) number }
    ensures first { slice_index result 0 ≡ word_at memory.now page (8 * number) }
{
    memory.whole();
    let mut words = [0; 8];
    for i in 0..8 {
        words[i] = memory.load(page, 8 * number + i);
    }
    words
}
