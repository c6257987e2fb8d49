//! How a hall is made, and taken apart.
ghost use Rattle.std.specs.Prelude.{◌≡◌, ℕ, ◌+◌, ◌^◌, ◌<◌, ◌↔◌, [], ◌∷◌, length, IfOk, IfErr, Some};
ghost use Rattle.turn_hall.specs.Numbers.{AreParts};
ghost use Rattle.turn_hall.specs.Passes.{IsPassOf, seen_by, held_by, Holds, HoldsNumber, Rests, first_of, numbers_of};

use crate::hall::{Hall, OPEN, Opening, Pass};
use crate::stands::Stands;
use crate::view::Place;
use atomic_table::{Refused, Table};
use std::alloc::{AllocError, Global};
use std::snapshot::Snapshot;

impl<T: Stands> Hall<T> {
    /// A hall with the value at home, and the pass of all its numbers, which has seen the value's list. The history counts from
    /// `first`. For want of memory the value comes back.
    pub fn new(alloc: Global, value: T, first: u64) -> Result<(Hall<T>, Pass<T>), (T, AllocError)>
        requires numbers { 0 < T.numbers value }
        requires room { first + length (T.history value) < 2 ^ 64 }
        ensures hall { IfOk result (λ r. IsPassOf r.0 r.1 × (first_of r.0 ≡ first) × (numbers_of T.numbers r.0 ≡ T.numbers value)) }
        ensures pass { IfOk result (λ r. Rests r.1 × (seen_by r.1 ≡ T.history value)) }
        ensures held { IfOk result (λ r. (n : ℕ) (q : T.Part) → Holds r.1 n q ↔ ((n < T.numbers value) × (q ≡ T.part_of value n))) }
        ensures refused { IfErr result (λ e. e.0 ≡ value) }
    {
        let history = first + value.entries();
        let mut slots = match Vec::with_capacity(alloc, 1) {
            Ok(slots) => slots,
            Err(error) => return Err((value, error)),
        };
        let about = Opening {
            value: Snapshot::of(&value),
            first,
        };
        slots.push_reserved(Some(value));
        match Table::new(alloc, &[history, OPEN], slots, &about) {
            Ok((row, pass)) => Ok((Hall { row, first }, pass)),
            Err(Refused { slots }) => Err((only_value(slots), AllocError)),
        }
    }

    /// The value, from the pass that holds all numbers.
    pub fn close(self, pass: Pass<T>) -> T
        requires hall { IsPassOf self pass }
        requires rests { Rests pass }
        requires all { (n : ℕ) → n < numbers_of T.numbers self → HoldsNumber pass n }
        ensures seen { T.history result ≡ seen_by pass }
        ensures parts { AreParts (T.part_of result) (held_by pass) }
    {
        let Hall { row, first: _ } = self;
        let mut closed = row.close_with(pass);
        let place = closed.take(0);
        closed.free();
        place.unwrap()
    }
}

fn only_value<T>(mut slots: Vec<Place<T>>) -> T
    requires { (x : T) × (slots.items ≡ Some x ∷ []) }
    ensures { (x : T) → slots.items ≡ Some x ∷ [] → result ≡ x }
{
    let place = slots.pop();
    slots.destroy_empty();
    place.unwrap().unwrap()
}
