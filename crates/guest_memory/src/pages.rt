//! The pages that are held, by guest page number, and room for further ones.

ghost use Rattle.std.specs.Prelude.{◌≡◌, ◌+◌, ◌<◌, ◌^◌, ℕ, IsSome, Some, OnOk, OnErr, IfOk, vec_len, replicate};
ghost use Rattle.std.specs.Option.{option_copied};
ghost use Rattle.std.specs.Ordering.{nat_cmp};
ghost use Rattle.std.specs.FinMap as map;
ghost use Rattle.std.specs.BTreeMap as tree;
ghost use Rattle.snp_model.specs.GuestMemory.{with_known, with_pages, without_pages, unknown_places};
ghost use Rattle.guest_memory.specs.Pages.{memory_of, HasRoom};

use crate::page::Page;
use std::alloc::{AllocError, Global};
use std::collections::BTreeMap;

/// Entries by guest page number. One without a page is room for it, and isn't held.
pub(crate) type Pages = BTreeMap<u64, Option<Page>>;

/// Holds one page, in place of the one that may be held there.
#[tactic(auto, using(crate::proofs::PagesLaws::memory_set))]
pub(crate) fn hold(pages: &mut Pages, gpn: u64, page: Page) -> Result<(), AllocError>
    ensures ok { OnOk result (memory_of pages.new.entries ≡ map.insert (memory_of pages.old.entries) gpn page) }
    ensures err { OnErr result (memory_of pages.new.entries ≡ memory_of pages.old.entries) }
{
    pages.insert(gpn, Some(page))?;
    Ok(())
}

/// Makes room for so many pages from one on. Those that are held stay.
pub(crate) fn make_room(pages: &mut Pages, gpn: u64, count: u64) -> Result<(), AllocError>
    requires { gpn + count < 2 ^ 64 }
    ensures same { memory_of pages.new.entries ≡ memory_of pages.old.entries }
    ensures room { OnOk result (HasRoom pages.new.entries gpn count) }
{
    for i in 0..count {
        make_room_at(pages, gpn + i)?;
    }
    Ok(())
}

// Makes room for one page.
fn make_room_at(pages: &mut Pages, gpn: u64) -> Result<(), AllocError>
    ensures same { memory_of pages.new.entries ≡ memory_of pages.old.entries }
    ensures kept { (first count : ℕ) → HasRoom pages.old.entries first count → HasRoom pages.new.entries first count }
    ensures room { OnOk result (IsSome (tree.get nat_cmp pages.new gpn)) }
{
    if !pages.contains_key(&gpn) {
        pages.insert(gpn, None)?;
    }
    Ok(())
}

/// So many pages of which no word is known.
pub(crate) fn unknown_pages(alloc: Global, count: u64) -> Result<Vec<Page>, AllocError>
    ensures { IfOk result (λ pages. pages.items ≡ replicate count unknown_places) }
{
    let mut pages = Vec::new(alloc);
    for _ in 0..count {
        pages.push(Page::unknown(alloc)?)?;
    }
    Ok(pages)
}

/// Holds pages from one on of which no word is known, for which there is room. Takes no memory.
pub(crate) fn fill(pages: &mut Pages, gpn: u64, count: u64, mut fresh: Vec<Page>)
    requires below { gpn + count < 2 ^ 64 }
    requires unknown { fresh.items ≡ replicate count unknown_places }
    requires room { HasRoom pages.old.entries gpn count }
    ensures { memory_of pages.new.entries ≡ with_pages gpn count unknown_places (memory_of pages.old.entries) }
{
    for i in 0..count {
        if let Some(page) = fresh.pop() {
            put(pages, gpn + i, page);
        }
    }
}

// Holds a page for which there is room. Takes no memory.
fn put(pages: &mut Pages, gpn: u64, page: Page)
    requires { IsSome (tree.get nat_cmp pages.old gpn) }
    ensures { tree.Updates nat_cmp pages.old pages.new gpn (Some (Some page)) }
{
    if let Some(room) = pages.get_mut(&gpn) {
        *room = Some(page);
    }
}

/// Lets so many pages go, from one on.
pub(crate) fn let_go(pages: &mut Pages, gpn: u64, count: u64)
    requires { gpn + count < 2 ^ 64 }
    ensures { memory_of pages.new.entries ≡ without_pages gpn count (memory_of pages.old.entries) }
{
    for i in 0..count {
        pages.remove(&(gpn + i));
    }
}

/// The page that is held at a number.
#[tactic(auto, using(crate::proofs::PagesLaws::get_memory_of))]
pub(crate) fn page_at(pages: &Pages, gpn: u64) -> Option<&Page>
    ensures { option_copied result ≡ map.get (memory_of pages.now.entries) gpn }
{
    match pages.get(&gpn) {
        Some(Some(page)) => Some(page),
        Some(None) => None,
        None => None,
    }
}

/// Makes a word of a page that is held known to be this one.
pub(crate) fn learn(pages: &mut Pages, gpn: u64, index: u16, word: u64)
    requires { index < 512 }
    ensures { memory_of pages.new.entries ≡ with_known gpn index word (memory_of pages.old.entries) }
{
    if let Some(room) = pages.get_mut(&gpn) {
        if let Some(page) = room {
            page.set(index, word);
        }
    }
}
