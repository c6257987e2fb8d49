//! One turn.
ghost use Rattle.std.specs.Prelude.{◌≡◌};
ghost use Rattle.turn_hall.specs.Passes.{IsPassOf, IsSamePass, HoldsNumber, Rests, first_of};

use crate::marks::Marks;
use std::rt::Clock;
use std::sync::Wait;
use std::thread;
use std::time::Duration;
use turn_hall::{Hall, Pass};

/// How threads take turns.
#[derive(Clone, Copy)]
pub struct Manner {
    pub threads: u8,
    /// How many turns each takes.
    pub turns: u32,
    /// A thread sleeps inside each turn whose number, and its own, add up to a multiple of this; where it is 0, inside none.
    pub naps: u32,
}

/// Whether the thread of the number sleeps inside the turn.
pub fn is_nap(manner: Manner, number: u64, turn: u32) -> bool {
    manner.naps != 0 && number.wrapping_add(u64::from(turn)) % u64::from(manner.naps) == 0
}

/// Adds the number in one turn, or nothing for want of memory.
pub fn take_turn<T: Marks, R: Wait + Clock>(
    rt: &R,
    hall: &Hall<T>,
    pass: &mut Pass<T>,
    number: u64,
    is_nap: bool,
)
    requires hall { IsPassOf hall.now pass.old × (first_of hall.now ≡ 0) }
    requires rests { Rests pass.old × HoldsNumber pass.old number }
    ensures same { IsSamePass pass.old pass.new × Rests pass.new × HoldsNumber pass.new number }
{
    let mut value = hall.enter(rt, pass);
    nap(rt, is_nap);
    let _done = value.mark(number);
    let _entries = value.entries();
    hall.leave(pass, value);
}

fn nap<R: Clock>(rt: &R, is_nap: bool) {
    if is_nap {
        thread::sleep(rt, Duration::from_millis(1));
    }
}
