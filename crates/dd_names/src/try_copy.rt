ghost use Rattle.std.specs.Prelude.{◌≡◌, IfOk, Ok};

use std::alloc::AllocError;

/// A value that can be copied where there is memory for it.
pub trait TryCopy {
    /// An equal value of its own, or want of memory.
    fn copy(&self) -> Result<Self, AllocError>
        ensures { IfOk result (λ copied. copied ≡ self.now) };
}

impl TryCopy for u32 {
    fn copy(&self) -> Result<u32, AllocError> {
        Ok(*self)
    }
}

impl TryCopy for bool {
    fn copy(&self) -> Result<bool, AllocError> {
        Ok(*self)
    }
}

impl<T: TryCopy> TryCopy for Option<T> {
    fn copy(&self) -> Result<Option<T>, AllocError> {
        match self {
            None => Ok(None),
            Some(value) => Ok(Some(value.copy()?)),
        }
    }
}

/// Both values, where neither lacks memory. A struct of several fields is copied by it without leaving in between.
pub fn both<A: Drop, B: Drop>(
    a: Result<A, AllocError>,
    b: Result<B, AllocError>,
) -> Result<(A, B), AllocError>
    ensures { IfOk result (λ pair. (a ≡ Ok pair.0) × (b ≡ Ok pair.1)) }
{
    match (a, b) {
        (Ok(a), Ok(b)) => Ok((a, b)),
        _ => Err(AllocError),
    }
}
