//! The hall: a table of two words and one slot, under its rule. The words are the history, which is a first number plus the
//! number of entries, and the door. The slot has the value, or nothing while the value is out.
ghost use Rattle.std.specs.Prelude.{◌≡◌, []};
ghost use Rattle.turn_hall.specs.declared.view.Stage.TheVariants.{Idle};

use crate::stands::Stands;
use crate::view::{Place, View};
use atomic_table::{Seat, Table, TableRule};
use std::alloc::Global;
use std::snapshot::Snapshot;

pub(crate) const HISTORY: usize = 0;

pub(crate) const DOOR: usize = 1;

/// The value is out, and no thread sleeps before the door.
pub(crate) const SHUT: u64 = 0;

/// The value is out, and threads may sleep before the door.
pub(crate) const AWAITED: u64 = 1;

/// The same, and one of them asks that the door be left to those who have slept.
pub(crate) const ASKED: u64 = 2;

/// The value is at home, for any pass to take.
pub(crate) const OPEN: u64 = 3;

/// The value is at home, for one who has slept before the door.
pub(crate) const LEFT: u64 = 4;

/// What the rule is told as the hall is made: the value, and the number from which the history counts.
#[derive(Drop)]
pub struct Opening<T> {
    pub value: Snapshot<T>,
    pub first: u64,
}

/// The rule of the hall.
pub struct Line;

impl<T: Stands> TableRule<Place<T>, View<T, T::Entry, T::Part>, Opening<T>> for Line {
    ghost use Rattle.turn_hall.specs.Rule.{Turns};
    ghost use Rattle.turn_hall.specs.Moves.{first_view};

    ghost holds = { λ k. Turns T.history T.part_of (T.numbers k.value.value) k.first };

    ghost first = { λ k. first_view T.history T.part_of (T.numbers k.value.value) k.value.value };
}

/// A seat of a hall. Contracts see the list that it has seen, and the numbers that it holds, each with its part.
pub type Pass<T> = Seat<Place<T>, View<T, <T as Stands>::Entry, <T as Stands>::Part>>;

/// The table of a hall.
pub type Row<T> = Table<
    Place<T>,
    View<T, <T as Stands>::Entry, <T as Stands>::Part>,
    Opening<T>,
    Line,
    Global,
>;

/// A value that one thread has at a time.
#[derive(Drop)]
pub struct Hall<T: Stands> {
    pub(crate) row: Row<T>,
    pub(crate) first: u64,
    ghost sized: { (row.shared.table_id.words ≡ 2) × (row.shared.table_id.slots ≡ 1) },
    ghost counted: { first ≡ row.shared.key.first },
}

/// What a pass had seen. It holds no number.
#[derive(Drop)]
pub struct Note<T: Stands> {
    pub(crate) seat: Pass<T>,
    ghost rests: { (seat.me.0.stage ≡ Idle) × (seat.me.1 ≡ []) },
    ghost bare: { seat.me.0.held ≡ [] },
}
