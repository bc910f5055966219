ghost use Rattle.std.specs.Prelude.{◌≡◌};

use class_defs::RuleFault;
use std::error::Error;
use std::fmt;
use thor_value::NoMemory;

/// Why a check of a schema, an item or an upgrade doesn't answer Ok.
#[derive(Debug, Drop)]
pub enum CheckError {
    /// A rule is broken.
    Broken(RuleFault),
    /// Memory was not there.
    NoMemory,
}

impl From<NoMemory> for CheckError {
    ghost use Rattle.method_check.specs.declared.error.CheckError.TheVariants as error;

    ghost from_gives = { λ _ made. made ≡ error.NoMemory };

    fn from(_refused: NoMemory) -> CheckError {
        CheckError::NoMemory
    }
}

impl fmt::Display for CheckError {
    fn fmt<W: fmt::Write>(&self, f: &mut fmt::Formatter<W>) -> fmt::Result {
        match self {
            CheckError::Broken(fault) => write!(f, "{fault}"),
            CheckError::NoMemory => write!(f, "out of memory"),
        }
    }
}

impl Error for CheckError {}
