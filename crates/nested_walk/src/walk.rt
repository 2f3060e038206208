ghost use Rattle.std.specs.Prelude.{◌≡◌, ◌^◌, ◌<◌, [], ◌∷◌, ◌++◌};
ghost use Rattle.snp_model.specs.NestedWalk.{nested_end};
ghost use Rattle.nested_walk.specs.NestedReads.{IsNestedWalk, nested_reads};

use crate::entry::{after_word, nested_index};
use snp_model::{NestedEnd, NestedPath, PageSize};
use std::marker::Model;

/// A walk of nested page tables that stands at a read. It has no memory of its own: it says which word it needs,
/// and is fed with it.
#[derive(Clone, Copy, Debug, PartialEq, Eq)]
pub struct NestedWalk {
    path: NestedPath,
    // The frame of the table that is read next.
    table: u32,
    // The words that were read, and zeros behind them.
    words: [u64; 4],
    // How many words were read.
    count: usize,
}

impl Model for NestedWalk {
    ghost use Rattle.std.specs.Prelude.{◌-◌, ◌++◌, length, take, replicate};
    ghost use Rattle.snp_model.specs.NestedWalk.{nested_end};
    ghost use Rattle.nested_walk.specs.Walk.{Walk, table_of, IsStanding};

    ghost Value = { Walk };

    ghost view = { λ w. record { path = w.path; words = take w.count w.words } };

    ghost invariant = { λ w. IsStanding w.path w.table w.words w.count };

    ghost inverse = { λ w. record {
      path = w.path;
      table = table_of (nested_end w.path w.words);
      words = w.words ++ replicate (4 - length w.words) 0;
      count = length w.words;
    } };
}

/// A word of a nested table.
#[derive(Clone, Copy, Debug, PartialEq, Eq)]
pub struct WordAddress {
    /// The table's frame, in memory.
    pub frame: u32,
    /// The word's index in the table, below 512.
    pub index: u16,
}

/// What comes of a word that a nested walk was fed with.
#[derive(Clone, Copy, Debug, PartialEq, Eq)]
pub enum Walked {
    /// The walk goes on.
    More(NestedWalk),
    /// The frame, in memory, that the guest page number leads to, and the size of the leaf.
    Leaf { frame: u32, size: PageSize },
    /// A nested page fault with this EXITINFO1.
    Npf(u64),
}

impl NestedWalk {
    ghost use Rattle.nested_walk.specs.Answer.{answer_of, end_of, LeafIsInside};

    /// A walk of a guest page number through the tables of `root`, in a memory of `frames` frames: of an access that
    /// writes, is private, or is to a guest's table.
    pub fn start(
        root: u32,
        frames: u32,
        gpn: u64,
        write: bool,
        private: bool,
        table: bool,
    ) -> NestedWalk
        requires root { root < frames }
        requires gpn { gpn < 2 ^ 36 }
        ensures { result ≡ record {
          path = record { root = root; frames = frames; gpn = gpn; write = write; private = private; table = table };
          words = [];
        } }
    {
        let path = NestedPath {
            root,
            frames,
            gpn,
            write,
            private,
            table,
        };
        NestedWalk {
            path,
            table: root,
            words: [0; 4],
            count: 0,
        }
    }

    /// The word that the walk reads next.
    pub fn needs(&self) -> WordAddress
        ensures read { nested_end self.now.path self.now.words ≡ NestedEnd.Read result.frame result.index }
        // It is the next read of these reads.
        ensures walk { IsNestedWalk self.now.path (nested_reads self.now.path self.now.words)
            (NestedEnd.Read result.frame result.index) }
        ensures frame { result.frame < self.now.path.frames }
        ensures index { result.index < 512 }
    {
        WordAddress {
            frame: self.table,
            index: nested_index(self.path.gpn, 4 - self.count),
        }
    }

    /// What comes of the word that the walk needs. Any word may be given.
    pub fn feed(self, word: u64) -> Walked
        ensures answer { result ≡ answer_of self.path (self.words ++ word ∷ []) }
        // The reads with this one, and where they end.
        ensures walk { IsNestedWalk self.path (nested_reads self.path (self.words ++ word ∷ []))
            (end_of result) }
        ensures leaf { LeafIsInside self.path.frames result }
    {
        match after_word(&self.path, 4 - self.count, word) {
            NestedEnd::Read { frame, index: _ } => {
                let mut words = self.words;
                words[self.count] = word;
                Walked::More(NestedWalk {
                    path: self.path,
                    table: frame,
                    words,
                    count: self.count + 1,
                })
            }
            NestedEnd::Leaf { frame, size } => Walked::Leaf { frame, size },
            NestedEnd::Fault(code) => Walked::Npf(code),
        }
    }
}
