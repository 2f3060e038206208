ghost use Rattle.std.specs.Prelude.{◌≡◌, ◌≢◌, ◌==◌, ◌<◌, if◌then◌else◌, length, replicate, vec_capacity, IfOk};
ghost use Rattle.phys_memory.specs.Pages.{all_pages, ArePages};
ghost use Rattle.snp_model.specs.RegionWords.{IsRegion, OthersStay, page_at, word_at, page_set, word_set};

use std::alloc::{AllocError, Global};
use std::marker::Model;

/// The words of a region: 512 pages of 512 words of 64 bits, in one allocation of 2 MB. It has the pages up to the last
/// that was written to; the others have only zero words, and their memory isn't touched.
#[derive(Debug, Drop)]
pub struct Region {
    pages: Vec<[u64; 512]>,
}

impl Model for Region {
    ghost use Rattle.std.specs.Prelude.{ℕ, List, vec_capacity};
    ghost use Rattle.phys_memory.specs.Pages.{all_pages, ArePages};

    ghost Value = { List (List ℕ) };

    ghost view = { λ region. all_pages region.pages.items };

    ghost invariant = { λ region. ArePages region.pages.items (vec_capacity region.pages) };
}

impl Region {
    /// A region of zero words.
    #[tactic(auto, using(crate::proofs::PageLaws::none_are))]
    pub fn zeroed(alloc: Global) -> Result<Region, AllocError>
        ensures { IfOk result (λ region. region ≡ replicate 512 (replicate 512 0)) }
    {
        Ok(Region {
            pages: Vec::with_capacity(alloc, 512)?,
        })
    }

    /// There are 512 pages of 512 words.
    pub fn whole(&self)
        ensures { IsRegion self.now }
    {
        let _ = &self.pages;
    }

    /// A word.
    pub fn load(&self, page: usize, index: usize) -> u64
        requires page_below { page < 512 }
        requires index_below { index < 512 }
        ensures value { result ≡ word_at self.now page index }
    {
        if page < self.pages.len() {
            self.pages[page][index]
        } else {
            0
        }
    }

    /// Changes a word.
    pub fn store(&mut self, page: usize, index: usize, value: u64)
        requires page_below { page < 512 }
        requires index_below { index < 512 }
        ensures memory { self.new ≡ word_set self.old page index value }
        ensures others { OthersStay self.old self.new page index }
    {
        reach(&mut self.pages, page);
        set_word(&mut self.pages, page, index, value);
    }

    /// Changes a word, and gives the old one.
    pub fn swap(&mut self, page: usize, index: usize, value: u64) -> u64
        requires page_below { page < 512 }
        requires index_below { index < 512 }
        ensures old { result ≡ word_at self.old page index }
        ensures memory { self.new ≡ word_set self.old page index value }
        ensures others { OthersStay self.old self.new page index }
    {
        let old = self.load(page, index);
        self.store(page, index, value);
        old
    }

    /// Changes a word to `next` where it is `expected`, and gives the old one.
    pub fn compare_swap(&mut self, page: usize, index: usize, expected: u64, next: u64) -> u64
        requires page_below { page < 512 }
        requires index_below { index < 512 }
        ensures old { result ≡ word_at self.old page index }
        ensures found { result ≡ expected → self.new ≡ word_set self.old page index next }
        ensures missed { result ≢ expected → self.new ≡ self.old }
        ensures others { OthersStay self.old self.new page index }
    {
        let found = self.load(page, index);
        if found == expected {
            self.store(page, index, next);
        }
        found
    }

    /// Copies a page out.
    pub fn page_copy_out(&self, page: usize, out: &mut [u64; 512])
        requires { page < 512 }
        ensures { out.new ≡ page_at self.now page }
    {
        *out = if page < self.pages.len() {
            self.pages[page]
        } else {
            [0; 512]
        };
    }

    /// Copies a page in.
    pub fn page_copy_in(&mut self, page: usize, words: &[u64; 512])
        requires { page < 512 }
        ensures { self.new ≡ page_set self.old page words.now }
    {
        reach(&mut self.pages, page);
        set_page(&mut self.pages, page, words);
    }

    /// Fills a page with one value.
    pub fn page_fill(&mut self, page: usize, value: u64)
        requires { page < 512 }
        ensures { self.new ≡ page_set self.old page (replicate 512 value) }
    {
        reach(&mut self.pages, page);
        set_page(&mut self.pages, page, &[value; 512]);
    }
}

// Writes out the pages up to this one.
#[tactic(auto, using(crate::proofs::PageLaws::page_more, crate::proofs::PageLaws::more_are))]
fn reach(pages: &mut Vec<[u64; 512]>, page: usize)
    requires below { page < 512 }
    requires pages { ArePages pages.old.items (vec_capacity pages.old) }
    ensures same { all_pages pages.new.items ≡ all_pages pages.old.items }
    ensures reached { page < length pages.new.items }
    ensures pages { ArePages pages.new.items (vec_capacity pages.new) }
{
    'pages: while pages.len() <= page {
        pages.push_reserved([0; 512]);
    }
}

// Changes a word of a page that is written out.
fn set_word(pages: &mut Vec<[u64; 512]>, page: usize, index: usize, value: u64)
    requires below { page < length pages.old.items }
    requires index { index < 512 }
    requires pages { ArePages pages.old.items (vec_capacity pages.old) }
    ensures set { all_pages pages.new.items ≡ word_set (all_pages pages.old.items) page index value }
    ensures pages { ArePages pages.new.items (vec_capacity pages.new) }
{
    pages[page][index] = value;
}

// Changes a page that is written out.
#[tactic(auto, using(crate::proofs::PageLaws::page_set_all, crate::proofs::PageLaws::page_written))]
fn set_page(pages: &mut Vec<[u64; 512]>, page: usize, words: &[u64; 512])
    requires below { page < length pages.old.items }
    requires pages { ArePages pages.old.items (vec_capacity pages.old) }
    ensures set { all_pages pages.new.items ≡ page_set (all_pages pages.old.items) page words.now }
    ensures pages { ArePages pages.new.items (vec_capacity pages.new) }
{
    pages[page] = *words;
}
