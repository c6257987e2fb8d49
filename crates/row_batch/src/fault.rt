ghost use Rattle.std.specs.Prelude.{◌≡◌};
ghost use Rattle.row_batch.specs.declared.fault.BatchFault.TheVariants.{Memory};

use std::alloc::{AllocError, AllocFailed};

/// Why bytes were not read as a batch.
#[derive(Clone, Copy, Debug, PartialEq, Eq)]
pub enum BatchFault {
    /// They are no batch's bytes.
    Malformed,
    /// There was no memory for the batch.
    Memory,
}

impl From<AllocError> for BatchFault {
    ghost from_gives = { λ _ fault. fault ≡ Memory };

    fn from(_error: AllocError) -> BatchFault {
        BatchFault::Memory
    }
}

impl<T: Drop> From<AllocFailed<T>> for BatchFault {
    ghost from_gives = { λ _ fault. fault ≡ Memory };

    fn from(_failed: AllocFailed<T>) -> BatchFault {
        BatchFault::Memory
    }
}
