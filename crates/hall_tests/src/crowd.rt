//! Threads that take turns at one value, in a hall or under a lock.
ghost use Rattle.std.specs.Prelude.{◌≡◌, ℕ, ◌+◌, ◌<◌, [], IfOk};
ghost use Rattle.turn_hall.specs.Passes.{IsPassOf, IsSamePass, HoldsNumber, Rests, first_of};

use crate::guest::Guest;
use crate::marks::Marks;
use crate::turn::Manner;
use std::alloc::{AllocError, Global};
use std::rt::Clock;
use std::sync::{Mutex, Wait};
use std::thread;
use std::thread::Threads;
use turn_hall::{Hall, Pass};

/// The value behind the turns of threads in a hall, where each adds its own number, from 1 on.
pub fn in_hall<T: Marks + Send + Drop, R: Threads + Wait + Clock + Sync>(
    rt: &R,
    alloc: Global,
    value: T,
    manner: Manner,
) -> Result<T, AllocError>
    requires numbers { T.numbers value ≡ manner.threads + 1 }
    requires empty { T.history value ≡ [] }
{
    match opened(alloc, value) {
        Ok((hall, mut pass)) => left_in(rt, alloc, &hall, &mut pass, manner),
        Err(error) => Err(error),
    }
}

fn opened<T: Marks + Drop>(alloc: Global, value: T) -> Result<(Hall<T>, Pass<T>), AllocError>
    requires some { 0 < T.numbers value }
    requires empty { T.history value ≡ [] }
    ensures hall { IfOk result (λ r. IsPassOf r.0 r.1 × (first_of r.0 ≡ 0) × Rests r.1) }
    ensures numbers { IfOk result (λ r. (n : ℕ) → n < T.numbers value → HoldsNumber r.1 n) }
{
    match Hall::new(alloc, value, 0) {
        Ok(made) => Ok(made),
        Err((_, error)) => Err(error),
    }
}

fn left_in<T: Marks + Send + Drop, R: Threads + Wait + Clock + Sync>(
    rt: &R,
    alloc: Global,
    hall: &Hall<T>,
    pass: &mut Pass<T>,
    manner: Manner,
) -> Result<T, AllocError>
    requires hall { IsPassOf hall.now pass.old × (first_of hall.now ≡ 0) × Rests pass.old }
    requires numbers { (n : ℕ) → n < manner.threads + 1 → HoldsNumber pass.old n }
{
    match guests(alloc, hall, pass, u64::from(manner.threads)) {
        Ok(guests) => {
            crowd(rt, guests, manner);
            Ok(hall.enter(rt, pass))
        }
        Err(error) => Err(error),
    }
}

fn crowd<T: Marks + Send + Drop, R: Threads + Wait + Clock + Sync>(
    rt: &R,
    mut guests: Vec<Guest<'_, T>>,
    manner: Manner,
) {
    all_take_turns(rt, guests.as_mut_slice(), manner);
}

fn all_take_turns<T: Marks + Send, R: Threads + Wait + Clock + Sync>(
    rt: &R,
    guests: &mut [Guest<'_, T>],
    manner: Manner,
) {
    thread::for_each_mut(
        rt,
        guests,
        usize::from(manner.threads).max(1),
        &|_, guest: &mut Guest<'_, T>| guest.take_turns(rt, manner),
    );
}

// Guests with the numbers from 1 on. The pass keeps 0.
fn guests<'a, T: Marks + Drop>(
    alloc: Global,
    hall: &'a Hall<T>,
    pass: &mut Pass<T>,
    count: u64,
) -> Result<Vec<Guest<'a, T>>, AllocError>
    requires hall { IsPassOf hall.now pass.old × (first_of hall.now ≡ 0) × Rests pass.old }
    requires numbers { (n : ℕ) → n < count + 1 → HoldsNumber pass.old n }
    ensures rest { IsSamePass pass.old pass.new × Rests pass.new × HoldsNumber pass.new 0 }
{
    let mut guests = Vec::new(alloc);
    'guests: for made in 0..count {
        if let Err(error) = add_guest(hall, pass, &mut guests, count - made) {
            return Err(error);
        }
    }
    Ok(guests)
}

fn add_guest<'a, T: Marks + Drop>(
    hall: &'a Hall<T>,
    pass: &mut Pass<T>,
    guests: &mut Vec<Guest<'a, T>>,
    number: u64,
) -> Result<(), AllocError>
    requires hall { IsPassOf hall.now pass.old × (first_of hall.now ≡ 0) × Rests pass.old }
    requires some { 0 < number }
    requires numbers { (n : ℕ) → n < number + 1 → HoldsNumber pass.old n }
    ensures rest { IsSamePass pass.old pass.new × Rests pass.new × ((n : ℕ) → n < number → HoldsNumber pass.new n) }
{
    let mine = part(hall, pass, number);
    match guests.push(Guest::new(hall, mine, number)) {
        Ok(()) => Ok(()),
        Err(_) => Err(AllocError),
    }
}

// A pass that holds this number alone, and leaves those below it.
fn part<T: Marks>(hall: &Hall<T>, pass: &mut Pass<T>, number: u64) -> Pass<T>
    requires hall { IsPassOf hall.now pass.old × Rests pass.old }
    requires some { 0 < number }
    requires numbers { (n : ℕ) → n < number + 1 → HoldsNumber pass.old n }
    ensures mine { IsPassOf hall.now result × Rests result × HoldsNumber result number }
    ensures rest { IsSamePass pass.old pass.new × Rests pass.new × ((n : ℕ) → n < number → HoldsNumber pass.new n) }
{
    hall.split(pass, number)
}

/// The value behind the turns of threads under a lock of std.
pub fn under_lock<T: Marks + Send + Drop, R: Threads + Wait + Sync>(
    rt: &R,
    alloc: Global,
    value: T,
    manner: Manner,
) -> Result<T, AllocError> {
    match numbers(alloc, manner.threads) {
        Ok(mut numbers) => Ok(left_under(rt, value, numbers.as_mut_slice(), manner.turns)),
        Err(error) => Err(error),
    }
}

fn numbers(alloc: Global, threads: u8) -> Result<Vec<u64>, AllocError> {
    let mut numbers = Vec::new(alloc);
    'numbers: for number in 0..threads {
        numbers.push(u64::from(number))?;
    }
    Ok(numbers)
}

fn left_under<T: Marks + Send, R: Threads + Wait + Sync>(
    rt: &R,
    value: T,
    numbers: &mut [u64],
    turns: u32,
) -> T {
    let kept = Mutex::new(value);
    let threads = numbers.len().max(1);
    thread::for_each_mut(
        rt,
        numbers,
        threads,
        &|_, number: &mut u64| { take_locked(rt, &kept, *number, turns) },
    );
    kept.into_inner()
}

fn take_locked<T: Marks, R: Wait>(rt: &R, kept: &Mutex<T>, number: u64, turns: u32) {
    'turns: for _turn in 0..turns {
        let _done = kept.lock(rt).mark(number);
    }
}
