//! Why a script doesn't begin.

use script_parse::ReadError;
use thor_value::NoMemory;

/// Why a script doesn't begin.
#[derive(Clone, Copy, Debug, PartialEq, Eq)]
pub enum Unbegun {
    /// It isn't one that is accepted.
    Refused,
    /// Memory was not there.
    NoMemory,
}

impl From<NoMemory> for Unbegun {
    fn from(_missing: NoMemory) -> Unbegun {
        Unbegun::NoMemory
    }
}

impl From<ReadError> for Unbegun {
    fn from(error: ReadError) -> Unbegun {
        match error {
            ReadError::Refused(_) => Unbegun::Refused,
            ReadError::NoMemory => Unbegun::NoMemory,
        }
    }
}
