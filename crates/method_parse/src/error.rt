//! Why tokens could not be read.

ghost use Rattle.std.specs.Prelude.{◌≡◌};
ghost use Rattle.method_parse.specs.declared.error.ParseError.TheVariants.{NoMemory as OutOfMemory};

use thor_value::NoMemory;

/// Why a part of the tokens could not be read.
#[derive(Clone, Copy, Debug, PartialEq, Eq)]
pub enum ParseError {
    /// Memory was not there.
    NoMemory,
    /// No text goes on so: as many tokens are left as stand from the fault on.
    Stuck(usize),
}

impl From<NoMemory> for ParseError {
    ghost from_gives = { λ _ e. e ≡ OutOfMemory };

    fn from(_missing: NoMemory) -> ParseError {
        ParseError::NoMemory
    }
}
