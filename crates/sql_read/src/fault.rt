ghost use Rattle.std.specs.Prelude.{◌≡◌};
ghost use Rattle.sql_read.specs.declared.fault.ReadFault.TheVariants.{Memory};

use crate::input::Input;
use std::alloc::{AllocError, AllocFailed};

/// Why reading stopped.
#[derive(Drop)]
pub enum ReadFault<'a> {
    /// There was no memory.
    Memory,
    /// The first token of `rest`, or the end of the text, isn't what the rule asks for.
    Syntax { rest: Input<'a> },
    /// The first token of `rest` is a name of more than 64 characters.
    TooLong { rest: Input<'a> },
}

impl From<AllocError> for ReadFault<'_> {
    ghost from_gives = { λ _ e. e ≡ Memory };

    fn from(_e: AllocError) -> Self {
        ReadFault::Memory
    }
}

impl<T: Drop> From<AllocFailed<T>> for ReadFault<'_> {
    ghost from_gives = { λ _ e. e ≡ Memory };

    fn from(_e: AllocFailed<T>) -> Self {
        ReadFault::Memory
    }
}
