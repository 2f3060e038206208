ghost use Rattle.std.specs.Prelude.{◌≡◌, ℕ, ◌^◌, ◌<◌, Bool, List, [], ◌∷◌, ◌++◌};
ghost use Rattle.std.specs.List.{All};
ghost use Rattle.snp_model.specs.declared.entry.PageSize.{PageSize};
ghost use Rattle.snp_model.specs.declared.walk.GuestPath.{GuestPath};
ghost use Rattle.snp_model.specs.declared.walk.GuestEnd.{GuestEnd};
ghost use Rattle.snp_model.specs.GuestWalk.{guest_end};
ghost use Rattle.guest_walk.specs.GuestReads.{GuestRead, IsGuestWalk, IsGuestPermitted, guest_reads, guest_values};

/// The laws of guest walks. It does nothing.
pub fn guest_walk_laws()
    // Whatever words a walk is fed with, there are reads that can have happened, and an end.
    ensures any_words { (path : GuestPath) → (words : List ℕ) → 0 < path.levels
        → IsGuestWalk path (guest_reads path words) (guest_end path words) }

    // There are no others.
    ensures only_these { (path : GuestPath) → (reads : List GuestRead) → (stands : GuestEnd)
        → IsGuestWalk path reads stands
        → (reads ≡ guest_reads path (guest_values reads))
        × (stands ≡ guest_end path (guest_values reads)) }

    // A word more is a read more, of the word that the walk stood at.
    ensures one_more { (path : GuestPath) → (words : List ℕ) → (word gpn index : ℕ)
        → guest_end path words ≡ GuestEnd.Read gpn index
        → guest_reads path (words ++ word ∷ [])
        ≡ guest_reads path words ++ record { gpn = gpn; index = index; value = word } ∷ [] }

    // A leaf's guest page number is below 2^36, and each entry on the way to it let the access pass.
    ensures leaf { (path : GuestPath) → (words : List ℕ) → (gpn : ℕ) → (private : Bool) → (size : PageSize)
        → guest_end path words ≡ GuestEnd.Leaf gpn private size
        → All (IsGuestPermitted path) (guest_reads path words) × (gpn < 2 ^ 36) }
{}
