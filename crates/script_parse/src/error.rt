ghost use Rattle.std.specs.Prelude.{◌≡◌};
ghost use Rattle.script_parse.specs.Reads.{refused_by};
ghost use Rattle.script_parse.specs.declared.error.ReadError.TheVariants.{NoMemory as OutOfMemory};

use crate::refusal::Refusal;
use script_text::SyntaxError;
use thor_value::NoMemory;

/// Why a script was not read.
#[derive(Clone, Copy, Debug, PartialEq, Eq)]
pub enum ReadError {
    /// It is refused.
    Refused(Refusal),
    /// Memory was not there.
    NoMemory,
}

impl From<NoMemory> for ReadError {
    ghost from_gives = { λ _ e. e ≡ OutOfMemory };

    fn from(_missing: NoMemory) -> ReadError {
        ReadError::NoMemory
    }
}

impl From<SyntaxError> for ReadError {
    ghost from_gives = { λ error e. e ≡ refused_by error };

    fn from(error: SyntaxError) -> ReadError {
        match error {
            SyntaxError::Fault(fault) => ReadError::Refused(Refusal::Syntax { line: fault.line }),
            SyntaxError::NoMemory => ReadError::NoMemory,
        }
    }
}
