//! What each step tells. These types are for the proofs alone.
use crate::board::{Lodged, View};
use crate::journal::{Journal, Kept};
use atomic_table::{Join, Play, Split};
use std::marker::PhantomData;

pub(crate) struct Take<T, J> {
    of: PhantomData<(T, J)>,
}

impl<T: Kept<J>, J: Journal> Play<
    Option<Lodged<T, J>>,
    View<<J as Journal>::Opening, <J as Journal>::Entry>,
> for Take<T, J> {
    ghost use Rattle.entry_cells.specs.Moves.{takes};

    ghost then = { takes T.legal T.stands T.touches J.opening J.list };
}

pub(crate) struct Give<T, J> {
    of: PhantomData<(T, J)>,
}

impl<T: Kept<J>, J: Journal> Play<
    Option<Lodged<T, J>>,
    View<<J as Journal>::Opening, <J as Journal>::Entry>,
> for Give<T, J> {
    ghost use Rattle.entry_cells.specs.Moves.{gives};

    ghost then = { gives J.list };
}

pub(crate) struct Shut;

impl<T, J, O, E> Play<Option<Lodged<T, J>>, View<O, E>> for Shut {
    ghost use Rattle.entry_cells.specs.Moves.{shuts};

    ghost then = { shuts };
}

pub(crate) struct Open;

impl<T, J, O, E> Play<Option<Lodged<T, J>>, View<O, E>> for Open {
    ghost use Rattle.entry_cells.specs.Moves.{opens};

    ghost then = { opens };
}

// The first pass makes one more.
pub(crate) struct Make;

impl<O, E> Split<View<O, E>> for Make {
    ghost use Rattle.entry_cells.specs.Views.{making, newcomer};

    ghost left = { making };

    ghost right = { newcomer };
}

// A pass is closed into another.
pub(crate) struct Absorb;

impl<O, E> Join<View<O, E>> for Absorb {
    ghost use Rattle.entry_cells.specs.Views.{absorbing, spent};

    ghost both = { absorbing };

    ghost spent = { spent };
}
