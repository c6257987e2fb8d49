//! A thread that takes turns.
ghost use Rattle.std.specs.Prelude.{◌≡◌, ◌≢◌, []};
ghost use Rattle.turn_hall.specs.Numbers.{alone};
ghost use Rattle.turn_hall.specs.Passes.{IsPassOf, held_by, Rests, first_of};

use crate::marks::Marks;
use crate::turn::{Manner, is_nap, take_turn};
use std::rt::Clock;
use std::sync::Wait;
use turn_hall::{Hall, Pass};

/// A thread's pass of a hall, and the number that it adds.
#[derive(Drop)]
pub struct Guest<'a, T: Marks> {
    hall: &'a Hall<T>,
    pass: Pass<T>,
    number: u64,
    ghost from_zero: { first_of hall.now ≡ 0 },
    ghost of_hall: { IsPassOf hall.now pass },
    ghost rests: { Rests pass },
    ghost holds: { alone number (held_by pass) ≢ [] },
}

impl<'a, T: Marks> Guest<'a, T> {
    ghost use Rattle.turn_hall.specs.Passes.{HoldsNumber};

    /// The guest of a pass that holds the number.
    pub fn new(hall: &'a Hall<T>, pass: Pass<T>, number: u64) -> Guest<'a, T>
        requires hall { IsPassOf hall.now pass × (first_of hall.now ≡ 0) }
        requires rests { Rests pass × HoldsNumber pass number }
    {
        Guest { hall, pass, number }
    }

    /// Takes its turns.
    pub fn take_turns<R: Wait + Clock>(&mut self, rt: &R, manner: Manner) {
        'turns: for turn in 0..manner.turns {
            self.take_one(rt, is_nap(manner, self.number, turn));
        }
    }

    fn take_one<R: Wait + Clock>(&mut self, rt: &R, is_nap: bool) {
        take_turn(rt, self.hall, &mut self.pass, self.number, is_nap);
    }
}
