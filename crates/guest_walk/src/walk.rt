ghost use Rattle.std.specs.Prelude.{◌≡◌, ◌^◌, ◌<◌, ◌≤◌, ◌↔◌, [], ◌∷◌, ◌++◌, IsTrue, IsOk, IfOk};
ghost use Rattle.snp_model.specs.GuestWalk.{is_canonical, guest_end};
ghost use Rattle.guest_walk.specs.GuestReads.{IsGuestWalk, guest_reads};

use crate::entry::{after_word, guest_index, is_canonical};
use snp_model::{GuestEnd, GuestPath, PageSize};
use std::marker::Model;

/// A walk of a guest's page tables that stands at a read. It has no memory of its own: it says which word it needs,
/// and is fed with it.
#[derive(Clone, Copy, Debug, PartialEq, Eq)]
pub struct GuestWalk {
    path: GuestPath,
    // The guest page number of the table that is read next.
    table: u64,
    // The words that were read, and zeros behind them.
    words: [u64; 5],
    // How many words were read.
    count: usize,
}

impl Model for GuestWalk {
    ghost use Rattle.std.specs.Prelude.{◌-◌, ◌++◌, length, take, replicate};
    ghost use Rattle.snp_model.specs.GuestWalk.{guest_end};
    ghost use Rattle.guest_walk.specs.Walk.{Walk, table_of, IsStanding};

    ghost Value = { Walk };

    ghost view = { λ w. record { path = w.path; words = take w.count w.words } };

    ghost invariant = { λ w. IsStanding w.path w.table w.words w.count };

    ghost inverse = { λ w. record {
      path = w.path;
      table = table_of (guest_end w.path w.words);
      words = w.words ++ replicate (5 - length w.words) 0;
      count = length w.words;
    } };
}

/// An address whose bits 63:47 aren't all equal, or for five levels its bits 63:56.
#[derive(Clone, Copy, Debug, PartialEq, Eq)]
pub struct NotCanonical;

/// A word of a guest table.
#[derive(Clone, Copy, Debug, PartialEq, Eq)]
pub struct GuestWord {
    /// The table's guest page number, below 2^36.
    pub gpn: u64,
    /// The word's index in the table, below 512.
    pub index: u16,
}

/// What comes of a word that a guest walk was fed with.
#[derive(Clone, Copy, Debug, PartialEq, Eq)]
pub enum GuestWalked {
    /// The walk goes on.
    More(GuestWalk),
    /// The guest page number, below 2^36, that the address leads to, whether the access is private, and the size of
    /// the leaf.
    Leaf {
        gpn: u64,
        private: bool,
        size: PageSize,
    },
    /// A page fault with this error code.
    Pf(u64),
}

impl GuestWalk {
    ghost use Rattle.guest_walk.specs.Answer.{answer_of, end_of, LeafIsBelow};

    /// A walk of an address through four or five levels of tables from the guest page number `root` on, of an access
    /// that writes or not. It fails where bits 63:47 of the address aren't all equal, or for five levels bits 63:56.
    pub fn start(
        levels: u8,
        root: u64,
        address: u64,
        write: bool,
    ) -> Result<GuestWalk, NotCanonical>
        requires levels_low { 4 ≤ levels }
        requires levels_high { levels ≤ 5 }
        requires root { root < 2 ^ 36 }
        ensures canonical { IsOk result ↔ IsTrue (is_canonical levels address) }
        ensures walk { IfOk result (λ walk. walk ≡ record {
          path = record { levels = levels; root = root; address = address; write = write };
          words = [];
        }) }
    {
        if !is_canonical(levels, address) {
            return Err(NotCanonical);
        }
        let path = GuestPath {
            levels,
            root,
            address,
            write,
        };
        Ok(GuestWalk {
            path,
            table: root,
            words: [0; 5],
            count: 0,
        })
    }

    /// The word that the walk reads next.
    pub fn needs(&self) -> GuestWord
        ensures read { guest_end self.now.path self.now.words ≡ GuestEnd.Read result.gpn result.index }
        // It is the next read of these reads.
        ensures walk { IsGuestWalk self.now.path (guest_reads self.now.path self.now.words)
            (GuestEnd.Read result.gpn result.index) }
        ensures gpn { result.gpn < 2 ^ 36 }
        ensures index { result.index < 512 }
    {
        let level = self.path.levels as usize - self.count;
        GuestWord {
            gpn: self.table,
            index: guest_index(self.path.address, level),
        }
    }

    /// What comes of the word that the walk needs. Any word may be given.
    pub fn feed(self, word: u64) -> GuestWalked
        ensures answer { result ≡ answer_of self.path (self.words ++ word ∷ []) }
        // The reads with this one, and where they end.
        ensures walk { IsGuestWalk self.path (guest_reads self.path (self.words ++ word ∷ []))
            (end_of result) }
        ensures leaf { LeafIsBelow result }
    {
        let level = self.path.levels as usize - self.count;
        match after_word(&self.path, level, word) {
            GuestEnd::Read { gpn, index: _ } => {
                let mut words = self.words;
                words[self.count] = word;
                GuestWalked::More(GuestWalk {
                    path: self.path,
                    table: gpn,
                    words,
                    count: self.count + 1,
                })
            }
            GuestEnd::Leaf { gpn, private, size } => GuestWalked::Leaf { gpn, private, size },
            GuestEnd::Fault(code) => GuestWalked::Pf(code),
        }
    }
}
