// A source and a sink as their users see them. Each counts its faults, and may or may not tell its bytes.
ghost use Rattle.std.specs.Prelude.{◌≡◌, ◌<◌, List, ℕ, length, IfOk, Ok, Option};
ghost use Rattle.std.specs.Io.{ReadsAtMost, WritesAtMost};
ghost use Rattle.std.specs.Io.KnownBytes.{ReadConsumes, WriteAppends};
ghost use Rattle.edge_io.specs.Causes.{HasCause};

/// A call has failed, and its object has counted the fault.
#[derive(Clone, Copy, Debug, PartialEq, Eq)]
pub struct Failed;

/// Bytes that are read from the front to the end.
pub trait Source {
    /// The bytes left, where the source tells them.
    ghost left: { Self → Option (List ℕ) };

    /// The number of faults so far.
    ghost faults: { Self → ℕ };

    /// The number of faults so far. It never falls, and stands still at `u64::MAX`.
    fn faults(&self) -> u64
        ensures { result ≡ faults self.now };

    /// Moves some of the bytes left to the front of `into`, and says how many. Where `into` has room, 0 is the end of
    /// the input. With no room it answers 0.
    fn read(&mut self, into: &mut [u8]) -> Result<usize, Failed>
        ensures bound { ReadsAtMost result into.new }
        ensures bytes { ReadConsumes (left self.old) (left self.new) result into.new }
        ensures no_room { length into.old ≡ 0 → (result ≡ Ok 0) × (faults self.new ≡ faults self.old) }
        ensures cause { HasCause (faults self.old) (faults self.new) result };
}

/// Bytes that are written one after another.
pub trait Sink {
    /// The bytes written so far, where the sink tells them.
    ghost held: { Self → Option (List ℕ) };

    /// The number of faults so far.
    ghost faults: { Self → ℕ };

    /// The number of faults so far. It never falls, and stands still at `u64::MAX`.
    fn faults(&self) -> u64
        ensures { result ≡ faults self.now };

    /// Writes the first of `bytes`, at least one where there is one, and says how many.
    fn write(&mut self, bytes: &[u8]) -> Result<usize, Failed>
        ensures bound { WritesAtMost result bytes.now }
        ensures progress { IfOk result (λ n. 0 < length bytes.now → 0 < n) }
        ensures bytes { WriteAppends (held self.old) (held self.new) result bytes.now }
        ensures nothing { length bytes.now ≡ 0 → (result ≡ Ok 0) × (faults self.new ≡ faults self.old) }
        ensures cause { HasCause (faults self.old) (faults self.new) result };
}
