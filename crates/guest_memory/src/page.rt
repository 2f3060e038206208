//! The 512 words of one page.

ghost use Rattle.std.specs.Prelude.{◌≡◌, ◌<◌, map, length, slice_index_or, slice_set, Some, None, IfOk};
ghost use Rattle.snp_model.specs.GuestMemory.{unknown_places};

use std::alloc::{AllocError, Global};
use std::marker::Model;

/// A page's words, each known or unknown.
#[derive(Drop)]
pub(crate) struct Page {
    words: Box<[Option<u64>; 512]>,
}

impl Model for Page {
    ghost use Rattle.std.specs.Prelude.{◌≡◌, length};
    ghost use Rattle.snp_model.specs.GuestMemory.{Places};

    ghost Value = { Places };

    ghost view = { λ page. page.words.value };

    ghost invariant = { λ page. length page.words.value ≡ 512 };
}

impl Page {
    /// A page of which no word is known.
    #[tactic(auto, unfolding(snp_model::specs::GuestMemory::unknown_places))]
    pub fn unknown(alloc: Global) -> Result<Page, AllocError>
        ensures { IfOk result (λ page. page ≡ unknown_places) }
    {
        let words = Box::new(alloc, [None; 512])?;
        Ok(Page { words })
    }

    /// A page with these words, all of them known.
    pub fn of_words(alloc: Global, words: &[u64; 512]) -> Result<Page, AllocError>
        ensures { IfOk result (λ page. page ≡ map Some words.now) }
    {
        let mut known = [None; 512];
        for i in 0..512 {
            known[i] = Some(words[i]);
        }
        let words = Box::new(alloc, known)?;
        Ok(Page { words })
    }

    /// The word at a place, where it is known.
    pub fn word(&self, index: u16) -> Option<u64>
        requires { index < 512 }
        ensures { result ≡ slice_index_or self.now index None }
    {
        self.words[index as usize]
    }

    /// Makes the word at a place known to be this one.
    pub fn set(&mut self, index: u16, word: u64)
        requires { index < 512 }
        ensures { self.new ≡ slice_set self.old index (Some word) }
    {
        self.words[index as usize] = Some(word);
    }
}
