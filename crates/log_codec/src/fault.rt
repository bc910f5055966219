ghost use Rattle.std.specs.Prelude.{◌≡◌};
ghost use Rattle.log_codec.specs.declared.fault.BodyFault.TheVariants.{NoMemory as OutOfMemory};

use std::alloc::{AllocError, AllocFailed};
use std::error::Error;
use std::fmt;
use thor_value::NoMemory;

/// Why some bytes were not read as a record's body or as a checkpoint.
#[derive(Clone, Copy, Debug, PartialEq, Eq)]
pub enum BodyFault {
    /// The bytes, from the first to the last, aren't one.
    NotOne,
    /// Memory was not there.
    NoMemory,
}

impl fmt::Display for BodyFault {
    fn fmt<W: fmt::Write>(&self, f: &mut fmt::Formatter<W>) -> fmt::Result {
        match self {
            BodyFault::NotOne => write!(f, "the bytes are none of the format"),
            BodyFault::NoMemory => write!(f, "out of memory"),
        }
    }
}

impl Error for BodyFault {}

impl From<NoMemory> for BodyFault {
    ghost from_gives = { λ _ fault. fault ≡ OutOfMemory };

    fn from(_refused: NoMemory) -> BodyFault {
        BodyFault::NoMemory
    }
}

impl From<AllocError> for BodyFault {
    ghost from_gives = { λ _ fault. fault ≡ OutOfMemory };

    fn from(_refused: AllocError) -> BodyFault {
        BodyFault::NoMemory
    }
}

impl<T: Drop> From<AllocFailed<T>> for BodyFault {
    ghost from_gives = { λ _ fault. fault ≡ OutOfMemory };

    fn from(_refused: AllocFailed<T>) -> BodyFault {
        BodyFault::NoMemory
    }
}
