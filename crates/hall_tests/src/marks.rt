//! Values to which threads add their numbers.
ghost use Rattle.std.specs.Prelude.{◌≡◌, [], IfOk};

use hall_count::Tally;
use std::alloc::{AllocError, Global};
use turn_hall::Stands;

/// A value to which a number is added in a turn.
pub trait Marks: Stands {
    ghost use Rattle.std.specs.Prelude.{◌≡◌, ◌≢◌, ℕ, ◌+◌, ◌≤◌};
    ghost use Rattle.turn_hall.specs.Prefixes.{IsPrefix};

    /// Adds a number, or nothing for want of memory. It says whether it did.
    fn mark(&mut self, number: u64) -> bool
        ensures begins { IsPrefix (Self.history self.old) (Self.history self.new) }
        ensures others { (n : ℕ) → n ≢ number → Self.part_of self.new n ≡ Self.part_of self.old n }
        ensures work { Self.work self.new ≤ Self.work self.old + 4 };
}

impl Marks for Tally {
    fn mark(&mut self, number: u64) -> bool {
        self.add(number).is_ok()
    }
}

impl<T: Marks> Marks for Box<T> {
    fn mark(&mut self, number: u64) -> bool {
        (**self).mark(number)
    }
}

/// A tally of some 4 KB.
#[derive(Drop)]
pub struct Wide {
    tally: Tally,
    rest: [u8; 4048],
}

impl Stands for Wide {
    ghost use Rattle.hall_count.specs.Times.{times};

    type Entry = u64;

    type Part = u64;

    ghost history = { λ w. w.tally.entries.items };

    ghost part_of = { λ w n. times n w.tally.entries.items };

    ghost numbers = { λ w. w.tally.numbers };

    ghost work = { λ w. w.tally.work };

    fn entries(&self) -> u64 {
        self.tally.entries.len() as u64
    }
}

impl Marks for Wide {
    fn mark(&mut self, number: u64) -> bool {
        self.tally.mark(number)
    }
}

/// An empty tally in a box.
pub fn tally_boxed(alloc: Global, numbers: u64) -> Result<Box<Tally>, AllocError>
    ensures { IfOk result (λ b. (b.value.entries.items ≡ []) × (b.value.numbers ≡ numbers)) }
{
    Ok(Box::new(alloc, Tally::new(alloc, numbers))?)
}

/// An empty wide tally in a box.
pub fn wide_boxed(alloc: Global, numbers: u64) -> Result<Box<Wide>, AllocError>
    ensures { IfOk result (λ b. (b.value.tally.entries.items ≡ []) × (b.value.tally.numbers ≡ numbers)) }
{
    let tally = Tally::new(alloc, numbers);
    Ok(Box::new(
        alloc,
        Wide {
            tally,
            rest: [0; 4048],
        },
    )?)
}
