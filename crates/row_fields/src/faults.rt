ghost use Rattle.std.specs.Prelude.{◌≡◌};
ghost use Rattle.row_fields.specs.declared.faults.FieldFault.TheVariants.{Memory};

use std::alloc::{AllocError, AllocFailed};

/// Why bytes were not read as fields.
#[derive(Clone, Copy, Debug, PartialEq, Eq)]
pub enum FieldFault {
    /// They aren't the bytes of such fields.
    Malformed,
    /// There was no memory for the fields.
    Memory,
}

impl From<AllocError> for FieldFault {
    ghost from_gives = { λ _ fault. fault ≡ Memory };

    fn from(_error: AllocError) -> FieldFault {
        FieldFault::Memory
    }
}

impl<T: Drop> From<AllocFailed<T>> for FieldFault {
    ghost from_gives = { λ _ fault. fault ≡ Memory };

    fn from(_failed: AllocFailed<T>) -> FieldFault {
        FieldFault::Memory
    }
}
