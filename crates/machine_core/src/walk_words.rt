ghost use Rattle.std.specs.Prelude.{◌≡◌, ◌<◌, length, []};
ghost use Rattle.machine_core.specs.Actors.{guest_words_with, nested_words_with};

use arrayvec::ArrayVec;
use snp_model::Deed;

/// The words that the walks of an open attempt have read: of guest tables, and of nested tables by the nested walk
/// under way.
#[derive(Drop)]
pub struct WalkWords {
    pub guest: ArrayVec<u64, 32>,
    pub nested: ArrayVec<u64, 32>,
}

impl WalkWords {
    /// No words.
    pub fn new() -> WalkWords
        ensures guest { result.guest.items ≡ [] }
        ensures nested { result.nested.items ≡ [] }
    {
        WalkWords {
            guest: ArrayVec::new(),
            nested: ArrayVec::new(),
        }
    }

    /// Takes in the word that a deed has read, if it has: a guest table's word begins the next nested walk.
    pub fn read(&mut self, deed: &Deed)
        requires guest { length self.old.guest.items < 32 }
        requires nested { length self.old.nested.items < 32 }
        ensures guest { self.new.guest.items ≡ guest_words_with deed.now self.old.guest.items }
        ensures nested { self.new.nested.items ≡ nested_words_with deed.now self.old.nested.items }
    {
        match deed {
            Deed::Nested { value, .. } => self.nested.push(*value),
            Deed::Table { value, .. } => {
                if let Some(value) = value {
                    self.guest.push(*value);
                }
                self.nested.clear();
            }
            Deed::Begin => {}
            Deed::Access { .. } => {}
            Deed::Host { .. } => {}
            Deed::Lock { .. } => {}
            Deed::LockContext { .. } => {}
            Deed::Compute => {}
            Deed::Commit { .. } => {}
            Deed::CommitContext { .. } => {}
            Deed::Control => {}
        }
    }

    /// Forgets all words.
    pub fn clear(&mut self)
        ensures guest { self.new.guest.items ≡ [] }
        ensures nested { self.new.nested.items ≡ [] }
    {
        self.guest.clear();
        self.nested.clear();
    }
}
