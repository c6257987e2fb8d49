ghost use Rattle.std.specs.Prelude.{◌≡◌};
ghost use Rattle.serde_json.specs.Errors.{IsMemory};
ghost use Rattle.sdi_text.specs.Reading.{Reads};

use dd_names::NameFault;
use serde_json::Error;

/// Why bytes aren't read as an SDI.
#[derive(Clone, Copy, Debug, PartialEq, Eq)]
pub enum SdiFault {
    /// They are the SDI of no table that is well formed.
    NotSdi,
    /// There was no memory for the table.
    Memory,
}

/// The fault where a text is no JSON.
pub(crate) fn of_json(error: &Error) -> SdiFault
    ensures { IsMemory error.now → result ≡ SdiFault.Memory }
{
    if error.is_memory() {
        SdiFault::Memory
    } else {
        SdiFault::NotSdi
    }
}

/// The fault where a text is no name.
pub(crate) fn of_name(fault: NameFault) -> SdiFault
    ensures { fault ≡ NameFault.Memory → result ≡ SdiFault.Memory }
{
    match fault {
        NameFault::Memory => SdiFault::Memory,
        NameFault::Empty
        | NameFault::BadCharacter { .. }
        | NameFault::DigitsOnly
        | NameFault::TooLong => SdiFault::NotSdi,
    }
}

/// Both values, where both are read.
pub(crate) fn both<A: Drop, B: Drop>(
    a: Result<A, SdiFault>,
    b: Result<B, SdiFault>,
) -> Result<(A, B), SdiFault>
    ensures { (x : A) → (y : B) → Reads x a → Reads y b → Reads (x, y) result }
{
    match (a, b) {
        (Ok(a), Ok(b)) => Ok((a, b)),
        (Err(fault), _) => Err(fault),
        (_, Err(fault)) => Err(fault),
    }
}
