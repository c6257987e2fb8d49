//! What is printed.
ghost use Rattle.std.specs.Prelude.{◌≡◌, ◌+◌, []};

use crate::crowd::{in_hall, under_lock};
use crate::marks::{Marks, tally_boxed, wide_boxed};
use crate::turn::Manner;
use crate::words::{Ask, Keeper, Race, Size};
use hall_count::Tally;
use std::alloc::{AllocError, Global};
use std::io;
use std::rt::Clock;
use std::sync::Wait;
use std::thread::Threads;
use std::time::Instant;

/// Each thread sleeps inside every hundredth of its turns.
const CROWD: Manner = Manner {
    threads: 32,
    turns: 1000,
    naps: 100,
};

/// Does what is asked for. Of a crowd it prints how many turns were counted; of a race the microseconds.
pub fn show<R: Threads + Wait + Clock + Print + AllocGlobal + Sync>(
    rt: &R,
    ask: Ask,
) -> io::Result<()> {
    match ask {
        Ask::Crowd => show_crowd(rt),
        Ask::Time(race) => show_race(rt, race),
    }
}

fn show_crowd<R: Threads + Wait + Clock + Print + AllocGlobal + Sync>(rt: &R) -> io::Result<()> {
    let turns = counted(rt, rt.alloc())?;
    println!(rt; "{turns} turns, as many of each thread")
}

// The turns that are counted of a crowd, or 0 where some thread's aren't all of them.
fn counted<R: Threads + Wait + Clock + Sync>(rt: &R, alloc: Global) -> Result<usize, AllocError> {
    let tally = crowd(rt, alloc)?;
    Ok(if has_all(&tally) {
        tally.entries.len()
    } else {
        0
    })
}

fn crowd<R: Threads + Wait + Clock + Sync>(rt: &R, alloc: Global) -> Result<Tally, AllocError> {
    let tally = Tally::new(alloc, u64::from(CROWD.threads) + 1);
    in_hall(rt, alloc, tally, CROWD)
}

// Whether the list has each number as often as its thread has taken turns.
fn has_all(tally: &Tally) -> bool {
    (1..u64::from(CROWD.threads) + 1).all(|number| count_of(&tally.entries, number)
        == CROWD.turns as usize)
}

fn count_of(entries: &[u64], number: u64) -> usize {
    entries.iter().filter(|entry| **entry == number).count()
}

fn show_race<R: Threads + Wait + Clock + Print + AllocGlobal + Sync>(
    rt: &R,
    race: Race,
) -> io::Result<()> {
    let begun = Instant::now(rt)?;
    run(rt, rt.alloc(), race)?;
    show_since(rt, begun)
}

fn show_since<R: Clock + Print>(rt: &R, begun: Instant) -> io::Result<()> {
    let micros = begun.elapsed(rt)?.as_micros();
    println!(rt; "{micros}")
}

fn run<R: Threads + Wait + Clock + Sync>(
    rt: &R,
    alloc: Global,
    race: Race,
) -> Result<(), AllocError> {
    match race.size {
        Size::Small => run_at(
            rt,
            alloc,
            Tally::new(alloc, u64::from(race.manner.threads) + 1),
            race,
        ),
        Size::Boxed => run_boxed(rt, alloc, race),
        Size::Wide => run_wide(rt, alloc, race),
    }
}

fn run_boxed<R: Threads + Wait + Clock + Sync>(
    rt: &R,
    alloc: Global,
    race: Race,
) -> Result<(), AllocError> {
    let value = tally_boxed(alloc, u64::from(race.manner.threads) + 1)?;
    run_at(rt, alloc, value, race)
}

fn run_wide<R: Threads + Wait + Clock + Sync>(
    rt: &R,
    alloc: Global,
    race: Race,
) -> Result<(), AllocError> {
    let value = wide_boxed(alloc, u64::from(race.manner.threads) + 1)?;
    run_at(rt, alloc, value, race)
}

fn run_at<T: Marks + Send + Drop, R: Threads + Wait + Clock + Sync>(
    rt: &R,
    alloc: Global,
    value: T,
    race: Race,
) -> Result<(), AllocError>
    requires numbers { T.numbers value ≡ race.manner.threads + 1 }
    requires empty { T.history value ≡ [] }
{
    let value = left(rt, alloc, value, race)?;
    if value.entries() == u64::from(race.manner.threads) * u64::from(race.manner.turns) {
        Ok(())
    } else {
        Err(AllocError)
    }
}

// The value behind all turns.
fn left<T: Marks + Send + Drop, R: Threads + Wait + Clock + Sync>(
    rt: &R,
    alloc: Global,
    value: T,
    race: Race,
) -> Result<T, AllocError>
    requires numbers { T.numbers value ≡ race.manner.threads + 1 }
    requires empty { T.history value ≡ [] }
{
    match race.keeper {
        Keeper::Hall => in_hall(rt, alloc, value, race.manner),
        Keeper::Lock => under_lock(rt, alloc, value, race.manner),
    }
}
