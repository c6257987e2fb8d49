ghost use Rattle.std.specs.Prelude.{◌≡◌};
ghost use Rattle.ddl_log.specs.declared.fault.LogFault.TheVariants.{Memory};

use std::alloc::AllocError;

/// Why bytes were not read as a record.
#[derive(Clone, Copy, Debug, PartialEq, Eq)]
pub enum LogFault {
    /// They are the bytes of no record with that id.
    Malformed,
    /// There was no memory for the record.
    Memory,
}

impl From<AllocError> for LogFault {
    ghost from_gives = { λ _ fault. fault ≡ Memory };

    fn from(_error: AllocError) -> LogFault {
        LogFault::Memory
    }
}
