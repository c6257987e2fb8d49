ghost use Rattle.std.specs.Prelude.{◌≡◌, ◌+◌, ◌≤◌, ◌++◌, ◌∷◌, [], OnOk, OnErr};

use std::alloc::{AllocError, Global};
use turn_hall::Stands;

/// A list of numbers, and how often one was added. What it keeps for a number is how often the number stands in the list.
#[derive(Drop)]
pub struct Tally {
    pub entries: Vec<u64>,
    /// The numbers are those below this one.
    pub numbers: u64,
    pub work: u64,
}

impl Stands for Tally {
    ghost use Rattle.hall_count.specs.Times.{times};

    type Entry = u64;

    type Part = u64;

    ghost history = { λ t. t.entries.items };

    ghost part_of = { λ t n. times n t.entries.items };

    ghost numbers = { λ t. t.numbers };

    ghost work = { λ t. t.work };

    fn entries(&self) -> u64 {
        self.entries.len() as u64
    }
}

impl Tally {
    /// An empty list.
    pub fn new(alloc: Global, numbers: u64) -> Tally
        ensures { (result.entries.items ≡ []) × (result.numbers ≡ numbers) }
    {
        Tally {
            entries: Vec::new(alloc),
            numbers,
            work: 0,
        }
    }

    /// Adds a number at the end, or nothing for want of memory.
    pub fn add(&mut self, number: u64) -> Result<(), AllocError>
        ensures ok { OnOk result (self.new.entries.items ≡ self.old.entries.items ++ number ∷ []) }
        ensures err { OnErr result (self.new.entries.items ≡ self.old.entries.items) }
        ensures numbers { self.new.numbers ≡ self.old.numbers }
        ensures work { self.new.work ≤ self.old.work + 1 }
    {
        self.work = self.work.saturating_add(1);
        self.entries.push(number)?;
        Ok(())
    }
}
