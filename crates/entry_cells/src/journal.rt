//! Journals, and values that stand for a part of one.
ghost use Rattle.std.specs.Prelude.{ℕ, List, ◌++◌};
ghost use Rattle.entry_cells.specs.Entries.{Untouched};

/// A journal begins with an opening, which no call changes, and has a list of pairs of actor and entry, the oldest first.
pub trait Journal: Drop {
    type Opening;

    type Entry;

    ghost opening: { Self → Self.Opening };

    ghost list: { Self → List (ℕ × Self.Entry) };
}

/// A value that stands for a part of the journals of `J`: each cell has a part of its own.
pub trait Kept<J: Journal>: Drop {
    /// Which lists are legal after an opening.
    ghost legal: { J.Opening → List (ℕ × J.Entry) → Type 0 };

    /// Of a cell, an opening and a list: the value is that cell's part of it.
    ghost stands: { ℕ → J.Opening → List (ℕ × J.Entry) → Self → Type 0 };

    /// Of an opening, a list and the entry that comes after it: the entry touches a cell.
    ghost touches: { J.Opening → List (ℕ × J.Entry) → ℕ × J.Entry → ℕ → Type 0 };

    /// The beginning of a legal journal is legal.
    ghost legal_prefix: { (c : J.Opening) (xs ys : List (ℕ × J.Entry)) → legal c (xs ++ ys) → legal c xs };

    /// Entries that don't touch a cell leave its part as it is.
    ghost untouched_stands: { (k : ℕ) (c : J.Opening) (xs ys : List (ℕ × J.Entry)) (x : Self) → legal c (xs ++ ys) → Untouched (touches c) xs ys k → stands k c xs x → stands k c (xs ++ ys) x };
}
