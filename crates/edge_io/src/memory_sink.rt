ghost use Rattle.std.specs.Prelude.{◌≡◌, ◌<◌, ◌⊎◌, [], Some, Ok, IsErr, IfOk, OnOk, OnErr, Contains, length};
ghost use Rattle.std.specs.Io.{WritesAtMost};
ghost use Rattle.std.specs.Io.KnownBytes.{WriteAppends};
ghost use Rattle.edge_io.specs.Causes.{HasCause, next_count};

use crate::stream::{Failed, Sink};
use std::alloc::Global;
use std::marker::Model;

/// A sink that keeps what was written in memory, and whose calls with the listed numbers fail.
#[derive(Drop)]
pub struct MemorySink {
    bytes: Vec<u8>,
    fail: Vec<u64>,
    calls: u64,
    faults: u64,
    lacked: u64,
}

impl Model for MemorySink {
    ghost use Rattle.edge_io.specs.MemoryState.{SinkState};

    ghost Value = { SinkState };

    ghost view = { λ s. record { written = s.bytes.items; fail = s.fail.items; calls = s.calls; faults = s.faults; lacked = s.lacked } };
}

impl MemorySink {
    /// A sink that holds nothing. Its calls are counted from 1, and those whose numbers are in `fail` fail; a call with
    /// no bytes has no number.
    pub fn new(alloc: Global, fail: Vec<u64>) -> MemorySink
        ensures { result ≡ record { written = []; fail = fail.items; calls = 0; faults = 0; lacked = 0 } }
    {
        MemorySink {
            bytes: Vec::new(alloc),
            fail,
            calls: 0,
            faults: 0,
            lacked: 0,
        }
    }

    /// All that was written.
    pub fn written(&self) -> &[u8]
        ensures { result.now ≡ self.now.written }
    {
        &self.bytes
    }

    /// How often there was no memory for what was to be written. It stands still at `u64::MAX`.
    pub fn lacked(&self) -> u64
        ensures { result ≡ self.now.lacked }
    {
        self.lacked
    }
}

impl Sink for MemorySink {
    ghost held = { λ s. Some s.written };

    ghost faults = { λ s. s.faults };

    fn faults(&self) -> u64 {
        self.faults
    }

    fn write(&mut self, bytes: &[u8]) -> Result<usize, Failed>
        ensures bound { WritesAtMost result bytes.now }
        ensures progress { IfOk result (λ n. 0 < length bytes.now → 0 < n) }
        ensures bytes { WriteAppends (Some self.old.written) (Some self.new.written) result bytes.now }
        ensures nothing { length bytes.now ≡ 0 → (result ≡ Ok 0) × (self.new.faults ≡ self.old.faults) }
        ensures cause { HasCause self.old.faults self.new.faults result }

        // All is written, unless the call is one of those that fail or there is no memory.
        ensures count { IfOk result (λ n. n ≡ length bytes.now) }
        ensures listed { 0 < length bytes.now → Contains self.old.fail (next_count self.old.calls) → IsErr result }
        ensures unlisted { OnOk result (self.new.faults ≡ self.old.faults) }
        ensures only { OnErr result (Contains self.old.fail (next_count self.old.calls) ⊎ (self.new.lacked ≡ next_count self.old.lacked)) }
        ensures numbered { 0 < length bytes.now → self.new.calls ≡ next_count self.old.calls }
        ensures list { self.new.fail ≡ self.old.fail }
    {
        if bytes.is_empty() {
            return Ok(0);
        }
        self.calls = self.calls.saturating_add(1);
        if self.fail.contains(&self.calls) {
            self.faults = self.faults.saturating_add(1);
            return Err(Failed);
        }
        if self.bytes.extend_from_slice(bytes).is_err() {
            self.lacked = self.lacked.saturating_add(1);
            self.faults = self.faults.saturating_add(1);
            return Err(Failed);
        }
        Ok(bytes.len())
    }
}
