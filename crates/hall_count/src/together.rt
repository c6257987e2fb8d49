//! Turns of two threads.
ghost use Rattle.std.specs.Prelude.{◌≡◌, ℕ, ◌+◌, IsTrue, IfOk};
ghost use Rattle.turn_hall.specs.Prefixes.{IsPrefix};
ghost use Rattle.turn_hall.specs.Passes.{IsPassOf, IsSamePass, seen_by, Holds, HoldsNumber, Rests, first_of};
ghost use Rattle.hall_count.specs.Times.{times};

use crate::tally::Tally;
use crate::turns::mark_often;
use std::alloc::{AllocError, Global};
use std::sync::Wait;
use std::thread;
use std::thread::Threads;
use turn_hall::{Hall, Pass};

// Whether both threads have added their numbers, 0 and 1, so often.
fn mark_both<R: Threads + Wait + Sync>(
    rt: &R,
    hall: &Hall<Tally>,
    left: &mut Pass<Tally>,
    right: &mut Pass<Tally>,
    count: u64,
) -> bool
    requires hall { IsPassOf hall.now left.old × IsPassOf hall.now right.old × (first_of hall.now ≡ 0) }
    requires left { Rests left.old × HoldsNumber left.old 0 }
    requires right { Rests right.old × HoldsNumber right.old 1 }
    ensures left { IsSamePass left.old left.new × Rests left.new × HoldsNumber left.new 0 }
    ensures right { IsSamePass right.old right.new × Rests right.new × HoldsNumber right.new 1 }
    ensures done { IsTrue result → ((k : ℕ) → Holds left.old 0 k → Holds left.new 0 (k + count))
        × ((k : ℕ) → Holds right.old 1 k → Holds right.new 1 (k + count)) }
{
    let (first, second) = thread::join_mut(
        rt,
        &mut || mark_often(rt, hall, left, 0, count).is_ok(),
        &mut || mark_often(rt, hall, right, 1, count).is_ok(),
    );
    first && second
}

/// Two threads add their numbers, 0 and 1, so often, by turns. The list has each of them so often, in the order of the turns.
pub fn count_together<R: Threads + Wait + Sync>(
    rt: &R,
    alloc: Global,
    count: u64,
) -> Result<Tally, AllocError>
    ensures { IfOk result (λ t. (times 0 t.entries.items ≡ count) × (times 1 t.entries.items ≡ count)) }
{
    let (hall, mut left) = match Hall::new(alloc, Tally::new(alloc, 2), 0) {
        Ok(made) => made,
        Err((_, fault)) => return Err(fault),
    };
    let mut right = hall.split(&mut left, 1);
    let done = mark_both(rt, &hall, &mut left, &mut right, count);
    let note = hall.note(&mut right);
    hall.hear(&mut left, note);
    hall.join(&mut left, right);
    let tally = hall.close(left);
    if done { Ok(tally) } else { Err(AllocError) }
}
