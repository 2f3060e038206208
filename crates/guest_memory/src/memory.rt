ghost use Rattle.std.specs.Prelude.{◌≡◌, ◌+◌, ◌<◌, ◌≤◌, ◌^◌, ◌↔◌, ℕ, true, unwrap_or, Some, None, IsTrue, IfOk, IfErr, OnOk, OnErr};
ghost use Rattle.std.specs.FinMap as map;
ghost use Rattle.std.specs.List.{AllByRecursion};
ghost use Rattle.snp_model.specs.declared.event.Deed.TheVariants as deeds;
ghost use Rattle.snp_model.specs.declared.item.Item.TheVariants as items;
ghost use Rattle.snp_model.specs.Facts.{frames_in};
ghost use Rattle.snp_model.specs.GuestMemory.{Accepts, IsHeld, IsLegalUse, Launches, opening_memory, use_of, use_of_validation, use_of_word, used, with_frames, with_lines};
ghost use Rattle.snp_model.specs.Opening.{words_from};
ghost use Rattle.snp_model.specs.Reading.{Valid};
ghost use Rattle.snp_model.specs.State.{zero_words};
ghost use Rattle.guest_memory.specs.Answers.{Answers, IsCause, IsInRange, Touches, differ};
ghost use Rattle.guest_memory.specs.Pages.{IsPlaced};
ghost use Rattle.guest_memory.specs.Uses.{can_belong, may_belong, use_by};

use crate::ApplyFault;
use crate::item::{may_belong, same_size};
use crate::opening::opening_words;
use crate::page::Page;
use crate::pages::{Pages, fill, hold, learn, let_go, make_room, page_at, unknown_pages};
use snp_model::{Deed, Event, Item, Op, Outcome, PageSize, PageSpec, Scenario, WordSpec};
use std::alloc::{AllocError, Global};
use std::collections::BTreeMap;
use std::marker::Model;

/// A guest's private memory: the pages that it holds, by guest page number, each with 512 words of 64 bits that are known or
/// unknown. Contracts see it as such a map. Memory is taken for pages that are held alone (this project's own).
#[derive(Drop)]
pub struct GuestMemory {
    alloc: Global,
    pages: Pages,
}

impl Model for GuestMemory {
    ghost use Rattle.std.specs.Coded.{coded_ℕ, coded_list, coded_option};
    ghost use Rattle.std.specs.FinMap.{code};
    ghost use Rattle.snp_model.specs.GuestMemory.{Memory};
    ghost use Rattle.guest_memory.specs.Pages.{memory_of};

    ghost Value = { Memory };

    ghost coded = { code coded_ℕ (coded_list (coded_option coded_ℕ)) };

    ghost view = { λ memory. memory_of memory.pages.entries };
}

impl GuestMemory {
    /// A guest's memory at the opening: its valid pages, with their opening words.
    #[tactic(auto, unfolding(snp_model::specs::GuestMemory::opening_memory))]
    pub fn build(alloc: Global, scenario: &Scenario, guest: u8) -> Result<GuestMemory, AllocError>
        requires { Valid scenario.now }
        ensures { IfOk result (λ memory. memory ≡ opening_memory scenario.now guest) }
    {
        let mut memory = GuestMemory::empty(alloc);
        memory.open_all(guest, scenario.pages.as_slice(), scenario.words.as_slice())?;
        Ok(memory)
    }

    // A memory that holds no page.
    #[tactic(auto, unfolding(crate::specs::Pages::memory_of))]
    fn empty(alloc: Global) -> GuestMemory
        ensures { result ≡ map.empty }
    {
        GuestMemory {
            alloc,
            pages: BTreeMap::new(alloc),
        }
    }

    // Holds the pages of each page line that is a valid one of the guest, with the words of their frames.
    #[tactic(auto, unfolding(snp_model::specs::GuestMemory::with_lines, snp_model::specs::GuestMemory::with_line))]
    fn open_all(
        &mut self,
        guest: u8,
        pages: &[PageSpec],
        words: &[WordSpec],
    ) -> Result<(), AllocError>
        requires pages { AllByRecursion IsPlaced pages.now }
        requires words { AllByRecursion (λ word. word.index < 512) words.now }
        ensures { OnOk result (self.new ≡ with_lines guest (words_from (λ _. zero_words) words.now) pages.now self.old) }
    {
        'pages: for page in pages {
            if page.valid && page.guest == guest {
                self.open(page, words)?;
            }
        }
        Ok(())
    }

    // Holds the pages of a page line, with the words of its frames.
    fn open(&mut self, page: &PageSpec, words: &[WordSpec]) -> Result<(), AllocError>
        requires page { IsPlaced page.now }
        requires words { AllByRecursion (λ word. word.index < 512) words.now }
        ensures { OnOk result (self.new ≡ with_frames (words_from (λ _. zero_words) words.now) page.now.frame page.now.gpn (frames_in page.now.size) self.old) }
    {
        for i in 0..page.size.frames() {
            let content = opening_words(words, page.frame + i);
            self.launch(page.gpn + u64::from(i), &content)?;
        }
        Ok(())
    }

    /// Applies an event of one of the guest's processors, which made this item: reads and writes words, and accepts and rescinds
    /// pages. An event whose outcome can't belong to its item does nothing. Accepting pages alone takes memory.
    pub fn apply(&mut self, event: &Event, item: &Item) -> Result<(), ApplyFault>
        requires { IsInRange event.now.deed }
        ensures legal { OnOk result (IsLegalUse self.old (use_by event.now item.now)) }
        ensures changed { OnOk result (self.new ≡ used (use_by event.now item.now) self.old) }
        ensures cause { IfErr result (IsCause self.old (use_by event.now item.now)) }
        ensures unchanged { OnErr result (self.new ≡ self.old) }
    {
        self.make(event, item)
    }

    // Applies an event.
    #[tactic(auto, using(crate::proofs::AnswersLaws::untouched, crate::proofs::AnswersLaws::reads), unfolding(crate::specs::Uses::use_by, snp_model::specs::GuestMemory::use_of))]
    fn make(&mut self, event: &Event, item: &Item) -> Result<(), ApplyFault>
        requires { IsInRange event.now.deed }
        ensures { Answers self.old (use_by event.now item.now) result self.new }
    {
        if !may_belong(&event.outcome, &event.deed, item) {
            return Ok(());
        }
        match event.deed {
            Deed::Table {
                gpn,
                index,
                value,
                ..
            } => match value {
                Some(found) => self.touch(gpn, index, Some(found), found),
                None => Ok(()),
            },
            Deed::Access {
                gpn,
                index,
                private,
                ..
            } => {
                if private {
                    self.access(gpn, index, item, &event.outcome)
                } else {
                    Ok(())
                }
            }
            Deed::Commit { gpn, size, .. } => self.validation(gpn, size, item, &event.outcome),
            Deed::Begin
            | Deed::Nested { .. }
            | Deed::Host { .. }
            | Deed::Lock { .. }
            | Deed::LockContext { .. }
            | Deed::Compute
            | Deed::CommitContext { .. }
            | Deed::Control => Ok(()),
        }
    }

    // A private access: reads or writes its word, where it passed.
    #[tactic(auto, using(crate::proofs::AnswersLaws::untouched), unfolding(snp_model::specs::GuestMemory::use_of))]
    fn access(
        &mut self,
        gpn: u64,
        index: u16,
        item: &Item,
        outcome: &Option<Outcome>,
    ) -> Result<(), ApplyFault>
        requires { index < 512 }
        ensures { (frame : ℕ) → may_belong outcome.now (deeds.Access gpn index frame true) item.now ≡ true → Answers self.old (use_of (deeds.Access gpn index frame true) item.now outcome.now) result self.new }
    {
        match item {
            Item::Access { op, .. } => match outcome {
                Some(outcome) => self.word(gpn, index, op, outcome),
                None => Ok(()),
            },
            Item::Pvalidate { .. }
            | Item::Rmpadjust { .. }
            | Item::Rmpupdate(_)
            | Item::Psmash { .. }
            | Item::Firmware(_)
            | Item::Skip { .. } => Ok(()),
        }
    }

    // A private access with this outcome: reads or writes its word, where it passed.
    #[tactic(auto, using(crate::proofs::AnswersLaws::untouched, crate::proofs::AnswersLaws::reads, crate::proofs::AnswersLaws::writes, crate::proofs::AnswersLaws::exchanges, crate::proofs::AnswersLaws::compares), unfolding(snp_model::specs::GuestMemory::use_of_word))]
    fn word(&mut self, gpn: u64, index: u16, op: &Op, outcome: &Outcome) -> Result<(), ApplyFault>
        requires { index < 512 }
        ensures { (deed : Deed) (address : ℕ) → can_belong outcome.now deed (items.Access address op.now) ≡ true → Answers self.old (use_of_word outcome.now op.now gpn index) result self.new }
    {
        match outcome {
            Outcome::Loaded(found) => match op {
                Op::Load => self.touch(gpn, index, Some(*found), *found),
                Op::Store(_) | Op::Swap(_) | Op::Compare { .. } | Op::Xor(_) => Ok(()),
            },
            Outcome::Stored => match op {
                Op::Store(value) => self.touch(gpn, index, None, *value),
                Op::Load | Op::Swap(_) | Op::Compare { .. } | Op::Xor(_) => Ok(()),
            },
            Outcome::Swapped(found) => match op {
                Op::Swap(value) => self.touch(gpn, index, Some(*found), *value),
                Op::Xor(value) => self.touch(gpn, index, Some(*found), *found ^ *value),
                Op::Load | Op::Store(_) | Op::Compare { .. } => Ok(()),
            },
            Outcome::Compared { found, written } => match op {
                Op::Compare { next, .. } => {
                    let left = if *written { *next } else { *found };
                    self.touch(gpn, index, Some(*found), left)
                }
                Op::Load | Op::Store(_) | Op::Swap(_) | Op::Xor(_) => Ok(()),
            },
            Outcome::Opaque
            | Outcome::Gp
            | Outcome::Pf(_)
            | Outcome::Npf(_)
            | Outcome::Vc(_)
            | Outcome::Offline
            | Outcome::Status(_)
            | Outcome::Carry(_)
            | Outcome::StatusInUse { .. }
            | Outcome::Firmware(_)
            | Outcome::FirmwareInUse { .. }
            | Outcome::BadTag { .. }
            | Outcome::Next
            | Outcome::Skipped(_) => Ok(()),
        }
    }

    // Finds a word at a place, or none, and leaves one.
    fn touch(
        &mut self,
        gpn: u64,
        index: u16,
        found: Option<u64>,
        left: u64,
    ) -> Result<(), ApplyFault>
        requires { index < 512 }
        ensures { Touches self.old gpn index found left result self.new }
    {
        let known = match page_at(&self.pages, gpn) {
            None => return Err(not_legal(None, found)),
            Some(page) => page.word(index),
        };
        if differ(known, found) {
            return Err(not_legal(known, found));
        }
        learn(&mut self.pages, gpn, index, left);
        Ok(())
    }

    // A commit: where it is PVALIDATE's, pages are accepted or rescinded.
    #[tactic(auto, using(crate::proofs::AnswersLaws::untouched), unfolding(snp_model::specs::GuestMemory::use_of))]
    fn validation(
        &mut self,
        gpn: u64,
        size: PageSize,
        item: &Item,
        outcome: &Option<Outcome>,
    ) -> Result<(), ApplyFault>
        requires { gpn < 2 ^ 36 }
        ensures { (frame : ℕ) → Answers self.old (use_of (deeds.Commit frame gpn size) item.now outcome.now) result self.new }
    {
        match item {
            Item::Pvalidate {
                size: asked,
                validate,
                ..
            } => match outcome {
                Some(Outcome::Carry(carry)) => self.validate(gpn, size, *asked, *validate, *carry),
                _ => Ok(()),
            },
            Item::Access { .. }
            | Item::Rmpadjust { .. }
            | Item::Rmpupdate(_)
            | Item::Psmash { .. }
            | Item::Firmware(_)
            | Item::Skip { .. } => Ok(()),
        }
    }

    // A PVALIDATE that ended with a carry flag, by the page and the size that its commit shows and its operands.
    #[tactic(auto, unfolding(snp_model::specs::GuestMemory::use_of_validation, snp_model::specs::GuestMemory::used))]
    fn validate(
        &mut self,
        gpn: u64,
        size: PageSize,
        asked: PageSize,
        validate: bool,
        carry: bool,
    ) -> Result<(), ApplyFault>
        requires { gpn < 2 ^ 36 }
        ensures { Answers self.old (use_of_validation gpn size asked validate carry) result self.new }
    {
        if carry || !same_size(size, asked) {
            return Ok(());
        }
        let count = u64::from(size.frames());
        if validate {
            self.accept(gpn, count)
        } else {
            let_go(&mut self.pages, gpn, count);
            Ok(())
        }
    }

    // Holds pages of which no word is known, in place of those that may be held there.
    #[tactic(auto, unfolding(snp_model::specs::GuestMemory::used))]
    fn accept(&mut self, gpn: u64, count: u64) -> Result<(), ApplyFault>
        requires { gpn + count < 2 ^ 64 }
        ensures { Answers self.old (Accepts gpn count) result self.new }
    {
        let fresh = unknown_pages(self.alloc, count).map_err(ApplyFault::Memory)?;
        make_room(&mut self.pages, gpn, count).map_err(ApplyFault::Memory)?;
        fill(&mut self.pages, gpn, count, fresh);
        Ok(())
    }

    /// Holds a page that was launched for the guest, with these words. Where memory runs out nothing changes.
    #[tactic(auto, unfolding(snp_model::specs::GuestMemory::used, snp_model::specs::GuestMemory::with_pages))]
    pub fn launch(&mut self, gpn: u64, words: &[u64; 512]) -> Result<(), AllocError>
        ensures ok { OnOk result (self.new ≡ used (Launches gpn words.now) self.old) }
        ensures err { OnErr result (self.new ≡ self.old) }
    {
        let page = Page::of_words(self.alloc, words)?;
        hold(&mut self.pages, gpn, page)
    }

    /// Whether the guest holds a page.
    pub fn held(&self, gpn: u64) -> bool
        ensures { IsTrue result ↔ IsHeld self.now gpn }
    {
        page_at(&self.pages, gpn).is_some()
    }
}

// Whether a word that is known differs from one that was found, where there are both.
fn differ(known: Option<u64>, found: Option<u64>) -> bool
    ensures { result ≡ differ known found }
{
    match (known, found) {
        (Some(known), Some(found)) => known != found,
        (None, _) | (_, None) => false,
    }
}

// The fault with the word that is known, and the one that was found.
fn not_legal(expected: Option<u64>, found: Option<u64>) -> ApplyFault
    ensures { result ≡ ApplyFault.NotLegal expected (unwrap_or found 0) }
{
    ApplyFault::NotLegal {
        expected,
        found: found.unwrap_or(0),
    }
}
