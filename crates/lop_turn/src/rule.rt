//! The rule that a turn's table keeps between any two steps, and the kinds of its steps.
//!
//! Two more kinds have no type here, since they change no view and move no word: the value goes out
//! of the slot and into it.
ghost use Rattle.lop_turn.specs.Views.{first_view, new_view, spent_view, after_split, after_join};
ghost use Rattle.lop_turn.specs.Rule.{IsKept, Tries, Gives, Announces, Raises, Reads};

use crate::kept::Kept;
use crate::view::View;
use atomic_table::{Join, Play, Split, TableRule};
use std::marker::PhantomData;
use std::snapshot::Snapshot;

/// The rule, and what the first pass knows. Both begin from the value that the turn is opened with.
pub struct TurnRule;

impl<T: Kept> TableRule<Option<T>, View<T::Entry>, Snapshot<T>> for TurnRule {
    ghost holds = { λ key. IsKept T.history T.worker T.score T.fixed };

    ghost first = { λ key. first_view T.worker (T.history key.value) (T.score key.value) (T.fixed key.value) };
}

/// Take the turn: the first word from 0 to the number of the pass plus 1.
pub struct Try;

impl<T: Kept> Play<Option<T>, View<T::Entry>> for Try {
    ghost then = { Tries T.history T.worker T.score T.fixed };
}

/// Give the turn: the first word back to 0.
pub struct Give;

impl<T: Kept> Play<Option<T>, View<T::Entry>> for Give {
    ghost then = { Gives T.history T.worker T.score T.fixed };
}

/// The first move of a split: the number of the next pass is announced. The word stays.
pub struct Announce;

impl<T: Kept> Play<Option<T>, View<T::Entry>> for Announce {
    ghost then = { Announces T.history T.worker T.score T.fixed };
}

/// Raise the mark: the second word to a greater one.
pub struct Raise;

impl<T: Kept> Play<Option<T>, View<T::Entry>> for Raise {
    ghost then = { Raises T.history T.worker T.score T.fixed };
}

/// Read the mark.
pub struct Read;

impl<T: Kept> Play<Option<T>, View<T::Entry>> for Read {
    ghost then = { Reads T.history T.worker T.score T.fixed };
}

/// The second move of a split: a pass comes into being, under the number that was announced.
pub struct SplitOff<T> {
    kept: PhantomData<T>,
}

impl<T: Kept> Split<View<T::Entry>> for SplitOff<T> {
    ghost left = { λ v. after_split v v.announced };

    ghost right = { λ v. new_view T.worker v v.announced };
}

/// A pass is joined into the first one, and counts no more.
pub struct JoinIn;

impl<E> Join<View<E>> for JoinIn {
    ghost both = { after_join };

    ghost spent = { spent_view };
}
