ghost use Rattle.std.specs.Prelude.{◌≡◌, IfOk};
ghost use Rattle.thor_value.specs.declared.memory.NoMemory.{NoMemory};

use std::alloc::{AllocError, AllocFailed};
use std::error::Error;
use std::fmt;

/// Memory was not there.
///
/// Unless the call's own text says otherwise, nothing has changed after it. No contract ties it to a
/// refused growth, so a test has to show that a call with ample memory succeeds.
#[derive(Clone, Copy, Debug, PartialEq, Eq)]
pub struct NoMemory;

impl fmt::Display for NoMemory {
    fn fmt<W: fmt::Write>(&self, f: &mut fmt::Formatter<W>) -> fmt::Result {
        write!(f, "out of memory")
    }
}

impl Error for NoMemory {}

impl From<AllocError> for NoMemory {
    fn from(_refused: AllocError) -> NoMemory {
        NoMemory
    }
}

impl<T: Drop> From<AllocFailed<T>> for NoMemory {
    fn from(_refused: AllocFailed<T>) -> NoMemory {
        NoMemory
    }
}

/// A value that can be copied where there is memory for it.
pub trait TryCopy {
    /// Another value, equal to this one.
    fn copy(&self) -> Result<Self, NoMemory>
        ensures { IfOk result (λ copied. copied ≡ self.now) };
}

impl TryCopy for u8 {
    fn copy(&self) -> Result<u8, NoMemory> {
        Ok(*self)
    }
}

impl TryCopy for u16 {
    fn copy(&self) -> Result<u16, NoMemory> {
        Ok(*self)
    }
}

impl TryCopy for u32 {
    fn copy(&self) -> Result<u32, NoMemory> {
        Ok(*self)
    }
}

impl TryCopy for u64 {
    fn copy(&self) -> Result<u64, NoMemory> {
        Ok(*self)
    }
}

impl TryCopy for i64 {
    fn copy(&self) -> Result<i64, NoMemory> {
        Ok(*self)
    }
}

impl<A: TryCopy + Drop, B: TryCopy + Drop> TryCopy for (A, B) {
    fn copy(&self) -> Result<(A, B), NoMemory> {
        let first = self.0.copy()?;
        let second = self.1.copy()?;
        Ok((first, second))
    }
}

impl<T: TryCopy + Drop> TryCopy for Option<T> {
    fn copy(&self) -> Result<Option<T>, NoMemory> {
        match self {
            None => Ok(None),
            Some(held) => Ok(Some(held.copy()?)),
        }
    }
}
