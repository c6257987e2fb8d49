//! Turns of one thread.
ghost use Rattle.std.specs.Prelude.{◌≡◌, ℕ, ◌+◌, ◌^◌, ◌<◌, ◌≤◌, OnOk, OnErr};
ghost use Rattle.turn_hall.specs.Prefixes.{IsPrefix};
ghost use Rattle.turn_hall.specs.Passes.{IsPassOf, IsSamePass, seen_by, Holds, HoldsNumber, Rests, first_of};

use crate::tally::Tally;
use std::alloc::AllocError;
use std::sync::Wait;
use turn_hall::{Hall, Pass};

/// Adds the pass's number in one turn, or nothing for want of memory.
pub fn mark<R: Wait>(
    rt: &R,
    hall: &Hall<Tally>,
    pass: &mut Pass<Tally>,
    number: u64,
) -> Result<(), AllocError>
    requires hall { IsPassOf hall.now pass.old × (first_of hall.now ≡ 0) }
    requires rests { Rests pass.old × HoldsNumber pass.old number }
    ensures same { IsSamePass pass.old pass.new × Rests pass.new × HoldsNumber pass.new number }
    ensures seen { IsPrefix (seen_by pass.old) (seen_by pass.new) }
    ensures ok { OnOk result ((k : ℕ) → Holds pass.old number k → Holds pass.new number (k + 1)) }
    ensures err { OnErr result ((k : ℕ) → Holds pass.old number k → Holds pass.new number k) }
{
    let mut tally = hall.enter(rt, pass);
    let added = tally.add(number);
    hall.leave(pass, tally);
    added
}

/// Adds the pass's number so often, in a turn each time. It stops for want of memory.
pub fn mark_often<R: Wait>(
    rt: &R,
    hall: &Hall<Tally>,
    pass: &mut Pass<Tally>,
    number: u64,
    count: u64,
) -> Result<(), AllocError>
    requires hall { IsPassOf hall.now pass.old × (first_of hall.now ≡ 0) }
    requires rests { Rests pass.old × HoldsNumber pass.old number }
    ensures same { IsSamePass pass.old pass.new × Rests pass.new × HoldsNumber pass.new number }
    ensures seen { IsPrefix (seen_by pass.old) (seen_by pass.new) }
    ensures ok { OnOk result ((k : ℕ) → Holds pass.old number k → Holds pass.new number (k + count)) }
{
    'turns: for _turn in 0..count {
        if let Err(fault) = mark(rt, hall, pass, number) {
            return Err(fault);
        }
    }
    Ok(())
}
