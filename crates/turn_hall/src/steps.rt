//! What each atomic step tells the seat that makes it, and how seats are split and joined. These types are for proofs alone.
use crate::stands::Stands;
use crate::view::{Place, View};
use atomic_table::{Join, Play, Split};
use std::marker::{Brand, PhantomData};

/// The value is taken and the door shut, unless the door is another than it was.
pub(crate) struct Take;

impl<T: Stands> Play<Place<T>, View<T, T::Entry, T::Part>> for Take {
    ghost use Rattle.turn_hall.specs.Moves.{tried};

    ghost then = { tried T.history T.part_of };
}

/// A shut door is marked.
pub(crate) struct Mark;

impl<T, E, Q> Play<Place<T>, View<T, E, Q>> for Mark {
    ghost use Rattle.turn_hall.specs.Moves.{same};

    ghost then = { same };
}

/// The entries that were made are counted in the history word.
pub(crate) struct Add;

impl<T: Stands> Play<Place<T>, View<T, T::Entry, T::Part>> for Add {
    ghost use Rattle.turn_hall.specs.Moves.{added};

    ghost then = { added T.history T.part_of };
}

/// The value is given back, and the door opened.
pub(crate) struct Hand;

impl<T: Stands> Play<Place<T>, View<T, T::Entry, T::Part>> for Hand {
    ghost use Rattle.turn_hall.specs.Moves.{handed};

    ghost then = { handed T.history T.part_of };
}

/// After a join, the history is looked at: both old lists begin the one that is seen.
pub(crate) struct Learn;

impl<T, E, Q> Play<Place<T>, View<T, E, Q>> for Learn {
    ghost use Rattle.turn_hall.specs.Moves.{learned};

    ghost then = { learned };
}

/// A number that a proof picks.
pub(crate) trait Chosen {
    ghost use Rattle.std.specs.Prelude.{ℕ};

    ghost number: { ℕ };
}

impl Chosen for Brand {
    ghost number = { 0 };
}

/// The new seat has the chosen number.
pub(crate) struct Cut<N> {
    number: PhantomData<N>,
}

impl<T, E, Q, N: Chosen> Split<View<T, E, Q>> for Cut<N> {
    ghost use Rattle.turn_hall.specs.Moves.{cut, given};

    ghost left = { cut N.number };

    ghost right = { given N.number };
}

/// The new seat has no number.
pub(crate) struct Copying;

impl<T, E, Q> Split<View<T, E, Q>> for Copying {
    ghost use Rattle.turn_hall.specs.Moves.{copied};

    ghost left = { λ v. v };

    ghost right = { copied };
}

/// One seat has the numbers of both and the longer list, and the other is spent.
pub(crate) struct Both;

impl<T, E, Q> Join<View<T, E, Q>> for Both {
    ghost use Rattle.std.specs.Prelude.{[]};
    ghost use Rattle.turn_hall.specs.Moves.{joined, quiet};

    ghost both = { joined };

    ghost spent = { quiet [] [] };
}
