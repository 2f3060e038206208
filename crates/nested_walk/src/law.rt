ghost use Rattle.std.specs.Prelude.{◌≡◌, ℕ, ◌<◌, List, [], ◌∷◌, ◌++◌};
ghost use Rattle.std.specs.List.{All};
ghost use Rattle.snp_model.specs.declared.entry.PageSize.{PageSize};
ghost use Rattle.snp_model.specs.declared.walk.NestedPath.{NestedPath};
ghost use Rattle.snp_model.specs.declared.walk.NestedEnd.{NestedEnd};
ghost use Rattle.snp_model.specs.NestedWalk.{nested_end};
ghost use Rattle.nested_walk.specs.NestedReads.{NestedRead, IsNestedWalk, IsPermitted, nested_reads, nested_values};

/// The laws of nested walks. It does nothing.
pub fn nested_walk_laws()
    // Whatever words a walk is fed with, there are reads that can have happened, and an end.
    ensures any_words { (path : NestedPath) → (words : List ℕ)
        → IsNestedWalk path (nested_reads path words) (nested_end path words) }

    // There are no others.
    ensures only_these { (path : NestedPath) → (reads : List NestedRead) → (stands : NestedEnd)
        → IsNestedWalk path reads stands
        → (reads ≡ nested_reads path (nested_values reads))
        × (stands ≡ nested_end path (nested_values reads)) }

    // A word more is a read more, of the word that the walk stood at.
    ensures one_more { (path : NestedPath) → (words : List ℕ) → (word frame index : ℕ)
        → nested_end path words ≡ NestedEnd.Read frame index
        → nested_reads path (words ++ word ∷ [])
        ≡ nested_reads path words ++ record { frame = frame; index = index; value = word } ∷ [] }

    // A leaf is in memory, and each entry on the way to it let the access pass.
    ensures leaf { (path : NestedPath) → (words : List ℕ) → (frame : ℕ) → (size : PageSize)
        → nested_end path words ≡ NestedEnd.Leaf frame size
        → All (IsPermitted path) (nested_reads path words) × (frame < path.frames) }
{}
