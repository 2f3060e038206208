ghost use Rattle.std.specs.Prelude.{◌≡◌, ◌<◌, ◌≤◌, ◌^◌, [], ◌∷◌, ◌++◌};
ghost use Rattle.snp_model.specs.GuestWalk as model;
ghost use Rattle.snp_model.specs.Bounds.{IsGuestInside};

use crate::entry::{after_word, guest_index};
use snp_model::{GuestEnd, GuestPath};

/// Where a walk stands that has read these words. Words past its end are passed over.
pub fn guest_end(path: &GuestPath, words: &[u64]) -> GuestEnd
    requires low { 0 < path.now.levels }
    requires high { path.now.levels ≤ 5 }
    requires root { path.now.root < 2 ^ 36 }
    ensures stands { result ≡ model.guest_end path.now words.now }
    ensures inside { IsGuestInside result }
{
    let mut level = path.levels as usize;
    let mut table = path.root;
    'words: for word in words {
        match after_word(path, level, *word) {
            GuestEnd::Read { gpn, index: _ } => {
                table = gpn;
                level -= 1;
            }
            GuestEnd::Leaf { gpn, private, size } => return GuestEnd::Leaf { gpn, private, size },
            GuestEnd::Fault(code) => return GuestEnd::Fault(code),
        }
    }
    GuestEnd::Read {
        gpn: table,
        index: guest_index(path.address, level),
    }
}

/// Where it stands with one word more.
pub fn guest_end_with(path: &GuestPath, words: &[u64], word: u64) -> GuestEnd
    requires low { 0 < path.now.levels }
    requires high { path.now.levels ≤ 5 }
    requires root { path.now.root < 2 ^ 36 }
    ensures { result ≡ model.guest_end path.now (words.now ++ word ∷ []) }
{
    match guest_end(path, words) {
        GuestEnd::Read { .. } => after_word(path, path.levels as usize - words.len(), word),
        GuestEnd::Leaf { gpn, private, size } => GuestEnd::Leaf { gpn, private, size },
        GuestEnd::Fault(code) => GuestEnd::Fault(code),
    }
}
