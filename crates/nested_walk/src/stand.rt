ghost use Rattle.std.specs.Prelude.{◌≡◌, ◌<◌, [], ◌∷◌, ◌++◌};
ghost use Rattle.snp_model.specs.NestedWalk as model;
ghost use Rattle.snp_model.specs.Bounds.{IsNestedInside};
ghost use Rattle.nested_walk.specs.Entry.{IsRead};

use crate::entry::{after_word, nested_index};
use snp_model::{NestedEnd, NestedPath};

/// Where a walk stands that has read these words. Words past its end are passed over.
pub fn nested_end(path: &NestedPath, words: &[u64]) -> NestedEnd
    requires { path.now.root < path.now.frames }
    ensures stands { result ≡ model.nested_end path.now words.now }
    ensures inside { IsNestedInside path.now.frames result }
{
    let mut level = 4;
    let mut table = path.root;
    'words: for word in words {
        match after_word(path, level, *word) {
            NestedEnd::Read { frame, index: _ } => {
                table = frame;
                level -= 1;
            }
            NestedEnd::Leaf { frame, size } => return NestedEnd::Leaf { frame, size },
            NestedEnd::Fault(code) => return NestedEnd::Fault(code),
        }
    }
    NestedEnd::Read {
        frame: table,
        index: nested_index(path.gpn, level),
    }
}

/// Where it stands with one word more.
pub fn nested_end_with(path: &NestedPath, words: &[u64], word: u64) -> NestedEnd
    requires { path.now.root < path.now.frames }
    ensures { result ≡ model.nested_end path.now (words.now ++ word ∷ []) }
{
    match nested_end(path, words) {
        NestedEnd::Read { .. } => after_word(path, 4 - words.len(), word),
        NestedEnd::Leaf { frame, size } => NestedEnd::Leaf { frame, size },
        NestedEnd::Fault(code) => NestedEnd::Fault(code),
    }
}

/// Where it goes with the word that it reads.
pub fn nested_end_after(path: &NestedPath, words: &[u64], word: u64) -> NestedEnd
    requires { IsRead (model.nested_end path.now words.now) }
    ensures { result ≡ model.nested_end path.now (words.now ++ word ∷ []) }
{
    after_word(path, 4 - words.len(), word)
}
