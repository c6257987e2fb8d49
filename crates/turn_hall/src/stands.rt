//! What a hall asks of the value that goes from thread to thread.
ghost use Rattle.std.specs.Prelude.{◌≡◌, ℕ, List, length};

/// A value that stands for a list of entries, and keeps a part for each number below a count.
pub trait Stands {
    type Entry;

    type Part;

    /// The list that the value stands for.
    ghost history: { Self → List Self.Entry };

    /// The part that the value keeps for a number.
    ghost part_of: { Self → ℕ → Self.Part };

    /// How many numbers there are.
    ghost numbers: { Self → ℕ };

    /// A count of what was done with the value. It rises by four at most in a turn.
    ghost work: { Self → ℕ };

    /// The number of entries in the list.
    fn entries(&self) -> u64
        ensures { result ≡ length (history self.now) };
}

/// A boxed value stands for what it contains, and goes from thread to thread as a pointer.
impl<T: Stands> Stands for Box<T> {
    type Entry = T::Entry;

    type Part = T::Part;

    ghost history = { λ b. T.history b.value };

    ghost part_of = { λ b. T.part_of b.value };

    ghost numbers = { λ b. T.numbers b.value };

    ghost work = { λ b. T.work b.value };

    fn entries(&self) -> u64 {
        (**self).entries()
    }
}
