ghost use Rattle.std.specs.Prelude.{◌≡◌};
ghost use Rattle.repo_state.specs.declared.fault.HoldFault.TheVariants.{NoMemory as OutOfMemory};

use std::fmt;
use thor_value::NoMemory;

/// Why a state wasn't taken into memory.
#[derive(Clone, Copy, Debug, PartialEq, Eq)]
pub enum HoldFault {
    /// No repository leaves such a state: an object's name is of another repository, or a transaction is
    /// prepared and its decision to commit is kept.
    Unfit,
    /// Memory was not there.
    NoMemory,
}

impl fmt::Display for HoldFault {
    fn fmt<W: fmt::Write>(&self, f: &mut fmt::Formatter<W>) -> fmt::Result {
        match self {
            HoldFault::Unfit => write!(f, "no repository leaves this state"),
            HoldFault::NoMemory => write!(f, "out of memory"),
        }
    }
}

impl From<NoMemory> for HoldFault {
    ghost from_gives = { λ _ fault. fault ≡ OutOfMemory };

    fn from(_refused: NoMemory) -> HoldFault {
        HoldFault::NoMemory
    }
}
