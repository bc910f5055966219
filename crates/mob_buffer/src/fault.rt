ghost use Rattle.std.specs.Prelude.{◌≡◌};
ghost use Rattle.mob_buffer.specs.declared.fault.MobFull.TheVariants.{NoMemory as Memory};

use std::alloc::AllocFailed;
use std::error::Error;
use std::fmt;
use thor_value::NoMemory;

/// Why an object wasn't added to a buffer.
#[derive(Clone, Copy, Debug, PartialEq, Eq)]
pub enum MobFull {
    /// The bytes of all objects would pass the buffer's limit.
    Full { limit: u32 },
    /// Memory was not there.
    NoMemory,
}

impl fmt::Display for MobFull {
    fn fmt<W: fmt::Write>(&self, f: &mut fmt::Formatter<W>) -> fmt::Result {
        match self {
            MobFull::Full { limit } => write!(f, "the buffer of {limit} bytes is full"),
            MobFull::NoMemory => write!(f, "out of memory"),
        }
    }
}

impl Error for MobFull {}

impl From<NoMemory> for MobFull {
    ghost from_gives = { λ _ fault. fault ≡ Memory };

    fn from(_refused: NoMemory) -> MobFull {
        MobFull::NoMemory
    }
}

impl<T: Drop> From<AllocFailed<T>> for MobFull {
    ghost from_gives = { λ _ fault. fault ≡ Memory };

    fn from(_refused: AllocFailed<T>) -> MobFull {
        MobFull::NoMemory
    }
}
