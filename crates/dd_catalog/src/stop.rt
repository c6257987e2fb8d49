use dd_errors::SqlError;
use dd_names::ObjectKey;
use std::alloc::{AllocError, AllocFailed};

/// Why a check came to no answer.
#[derive(Drop)]
pub enum Stop {
    /// The statement is refused.
    Refused(SqlError),
    /// The next key that the check looks at isn't known.
    Need(ObjectKey),
    /// There was no memory.
    Memory,
}

impl From<AllocError> for Stop {
    ghost use Rattle.std.specs.Prelude.{◌≡◌};
    ghost use Rattle.dd_catalog.specs.declared.stop.Stop.TheVariants.{Memory};

    ghost from_gives = { λ _ stop. stop ≡ Memory };

    fn from(_error: AllocError) -> Stop {
        Stop::Memory
    }
}

impl<T: Drop> From<AllocFailed<T>> for Stop {
    ghost use Rattle.std.specs.Prelude.{◌≡◌};
    ghost use Rattle.dd_catalog.specs.declared.stop.Stop.TheVariants.{Memory};

    ghost from_gives = { λ _ stop. stop ≡ Memory };

    fn from(_failed: AllocFailed<T>) -> Stop {
        Stop::Memory
    }
}
