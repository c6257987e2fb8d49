ghost use Rattle.std.specs.Prelude.{◌≡◌};
ghost use Rattle.row_journal.specs.declared.outcome.JournalFault.TheVariants.{Memory};

use std::alloc::{AllocError, AllocFailed};

/// What an append has come to. After `Fault` and `Unsure` the journal is spent, and keeps the count.
#[derive(Clone, Copy, Debug, PartialEq, Eq)]
pub enum Appended {
    /// The batch is in the file, and each crash leaves it there.
    Done,
    /// The disk failed before the gate was written, so no crash leaves the batch; with the disk's count of faults.
    Fault { count: u64 },
    /// The disk failed from the gate's write on, so a crash may leave the batch or not; with the disk's count of faults.
    Unsure { count: u64 },
}

/// Why a journal isn't open.
#[derive(Clone, Copy, Debug, PartialEq, Eq)]
pub enum JournalFault {
    /// The disk failed; with its count of faults.
    Fault { count: u64 },
    /// At that byte of the file a gate is missing, or an open one stands before bytes that are no length with that many bytes
    /// of a batch.
    Malformed { at: u64 },
    /// There was no memory for the batches.
    Memory,
}

impl From<AllocError> for JournalFault {
    ghost from_gives = { λ _ fault. fault ≡ Memory };

    fn from(_error: AllocError) -> JournalFault {
        JournalFault::Memory
    }
}

impl<T: Drop> From<AllocFailed<T>> for JournalFault {
    ghost from_gives = { λ _ fault. fault ≡ Memory };

    fn from(_failed: AllocFailed<T>) -> JournalFault {
        JournalFault::Memory
    }
}
