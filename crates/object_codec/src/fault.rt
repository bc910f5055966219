ghost use Rattle.std.specs.Prelude.{◌≡◌};
ghost use Rattle.object_codec.specs.declared.fault.ObjFault.TheVariants.{NoMemory as OutOfMemory};

use std::alloc::{AllocError, AllocFailed};
use std::error::Error;
use std::fmt;

/// Why no object stands at the front of some bytes.
#[derive(Clone, Copy, Debug, PartialEq, Eq)]
pub enum ObjFault {
    /// The bytes begin an object's spelling and end before it does.
    Short,
    /// The bytes neither begin with an object's spelling nor begin one.
    BadTag,
    /// The count of fields stands in the bytes and is above 32.
    TooLarge { count: u8 },
    /// Memory was not there.
    NoMemory,
}

impl fmt::Display for ObjFault {
    fn fmt<W: fmt::Write>(&self, f: &mut fmt::Formatter<W>) -> fmt::Result {
        match self {
            ObjFault::Short => write!(f, "the bytes end too early"),
            ObjFault::BadTag => write!(f, "the bytes are no object"),
            ObjFault::TooLarge { count } => write!(f, "an object of {count} fields"),
            ObjFault::NoMemory => write!(f, "out of memory"),
        }
    }
}

impl Error for ObjFault {}

impl From<AllocError> for ObjFault {
    ghost from_gives = { λ _ e. e ≡ OutOfMemory };

    fn from(_refused: AllocError) -> ObjFault {
        ObjFault::NoMemory
    }
}

impl<T: Drop> From<AllocFailed<T>> for ObjFault {
    ghost from_gives = { λ _ e. e ≡ OutOfMemory };

    fn from(_refused: AllocFailed<T>) -> ObjFault {
        ObjFault::NoMemory
    }
}
