ghost use Rattle.std.specs.Prelude.{◌≡◌, ℕ, ◌*◌, ◌^◌, ◌<◌, true, length, map, replicate, IfOk};
ghost use Rattle.std.specs.List.{AllByRecursion};
ghost use Rattle.snp_model.specs.declared.entry.PageSize.TheVariants.{Small};
ghost use Rattle.snp_model.specs.Entries.{facts_within};
ghost use Rattle.snp_model.specs.Facts.{free_entry};
ghost use Rattle.snp_model.specs.HeldContexts.{opening_held};
ghost use Rattle.snp_model.specs.Opening.{opening_part, page_facts, facts_from, words_from};
ghost use Rattle.snp_model.specs.Sound.{FramesDiffer, IsPage, IsWord, Pairwise};
ghost use Rattle.snp_model.specs.State.{zero_words};
ghost use Rattle.machine_core.specs.Bays.{facts_of, free_bay, locks_of, no_locks, own_bays, own_contexts, own_stock, words_of};

use crate::actor::ActorState;
use crate::bay::Bay;
use crate::changes::{set_entry, set_word};
use crate::cpu::asid_of;
use crate::parts::OwnParts;
use guest_context::GuestContext;
use snp_model::{Actor, GuestSpec, Kind, PageSpec, RmpEntry, WordSpec};
use std::alloc::{AllocError, Global};

// The entry of a guest's page, of which each frame has its facts, with page numbers that follow each other.
fn page_entry(guests: &[GuestSpec], page: &PageSpec) -> RmpEntry
    requires guest { 0 < page.now.guest }
    requires perms { length page.now.perms ≡ 3 }
    ensures facts { (place : ℕ) → page_facts guests.now page.now place ≡ facts_within result place }
    ensures size { result.size ≡ page.now.size }
    ensures assigned { result.assigned ≡ true }
    ensures gpn { result.gpn ≡ page.now.gpn }
{
    RmpEntry {
        assigned: true,
        size: page.size,
        immutable: false,
        gpn: page.gpn,
        asid: asid_of(guests, page.guest),
        vmsa: false,
        validated: page.valid,
        perms: [15, page.perms[0], page.perms[1], page.perms[2]],
        kind: Kind::Plain,
    }
}

// So many regions of memory, free and zero.
fn free_bays(alloc: Global, regions: u32) -> Result<Vec<Bay>, AllocError>
    ensures { IfOk result (λ bays. bays.items ≡ replicate regions free_bay) }
{
    let mut bays = Vec::new(alloc);
    'regions: for _ in 0..regions {
        bays.push(Bay::free(alloc)?)?;
    }
    Ok(bays)
}

// The contexts of guests at the opening.
fn first_contexts(alloc: Global, guests: &[GuestSpec]) -> Result<Vec<GuestContext>, AllocError>
    ensures { IfOk result (λ contexts. contexts.items ≡ map opening_held guests.now) }
{
    let mut contexts = Vec::new(alloc);
    'guests: for guest in guests {
        contexts.push(GuestContext::from_spec(guest))?;
    }
    Ok(contexts)
}

/// Memory of so many regions, free and zero, and the contexts of guests at the opening.
pub fn free_parts(alloc: Global, regions: u32, guests: &[GuestSpec]) -> Result<OwnParts, AllocError>
    ensures facts { IfOk result (λ parts. facts_of (own_bays parts.bays.items) ≡ (λ f. free_entry)) }
    ensures words { IfOk result (λ parts. words_of (own_bays parts.bays.items) ≡ (λ f. zero_words)) }
    ensures locks { IfOk result (λ parts. locks_of (own_stock parts.bays.items parts.contexts.items) ≡ no_locks) }
    ensures regions { IfOk result (λ parts. length parts.bays.items ≡ regions) }
    ensures contexts { IfOk result (λ parts. parts.contexts.items ≡ map opening_held guests.now) }
{
    Ok(OwnParts {
        bays: free_bays(alloc, regions)?,
        contexts: first_contexts(alloc, guests)?,
    })
}

/// Sets the entries of the guests' pages, of which no two have a frame in common, where there is no page of 2 MB and no lock.
#[tactic(auto, unfolding(snp_model::specs::Opening::facts_from))]
pub fn set_pages(parts: &mut OwnParts, guests: &[GuestSpec], pages: &[PageSpec])
    requires pages { AllByRecursion (IsPage (512 * length parts.old.bays.items) (length guests.now)) pages.now }
    requires apart { Pairwise FramesDiffer pages.now }
    requires small { (f : ℕ) → (facts_of (own_bays parts.old.bays.items) f).size ≡ Small }
    requires unlocked { locks_of (own_stock parts.old.bays.items parts.old.contexts.items) ≡ no_locks }
    ensures facts { facts_of (own_bays parts.new.bays.items) ≡ facts_from guests.now (facts_of (own_bays parts.old.bays.items)) pages.now }
    ensures words { words_of (own_bays parts.new.bays.items) ≡ words_of (own_bays parts.old.bays.items) }
    ensures locks { locks_of (own_stock parts.new.bays.items parts.new.contexts.items) ≡ locks_of (own_stock parts.old.bays.items parts.old.contexts.items) }
    ensures regions { length parts.new.bays.items ≡ length parts.old.bays.items }
    ensures contexts { own_contexts parts.new.contexts.items ≡ own_contexts parts.old.contexts.items }
    ensures guests { length parts.new.contexts.items ≡ length parts.old.contexts.items }
{
    'pages: for page in pages {
        set_entry(parts, page.frame, page_entry(guests, page));
    }
}

/// Sets words in their order.
#[tactic(auto, unfolding(snp_model::specs::Opening::words_from))]
pub fn set_words(parts: &mut OwnParts, words: &[WordSpec])
    requires { AllByRecursion (IsWord (512 * length parts.old.bays.items)) words.now }
    ensures words { words_of (own_bays parts.new.bays.items) ≡ words_from (words_of (own_bays parts.old.bays.items)) words.now }
    ensures facts { facts_of (own_bays parts.new.bays.items) ≡ facts_of (own_bays parts.old.bays.items) }
    ensures locks { locks_of (own_stock parts.new.bays.items parts.new.contexts.items) ≡ locks_of (own_stock parts.old.bays.items parts.old.contexts.items) }
    ensures regions { length parts.new.bays.items ≡ length parts.old.bays.items }
    ensures contexts { own_contexts parts.new.contexts.items ≡ own_contexts parts.old.contexts.items }
    ensures guests { length parts.new.contexts.items ≡ length parts.old.contexts.items }
{
    'words: for word in words {
        set_word(parts, word.frame, word.index, word.value);
    }
}

/// The actors before their first items.
pub fn make_actors(alloc: Global, actors: &[Actor]) -> Result<Vec<ActorState>, AllocError>
    requires { AllByRecursion (λ actor. length actor.script < 2 ^ 32) actors.now }
    ensures { IfOk result (λ parts. parts.items ≡ map opening_part actors.now) }
{
    let mut parts = Vec::new(alloc);
    'actors: for actor in actors {
        parts.push(ActorState::new(alloc, actor)?)?;
    }
    Ok(parts)
}
