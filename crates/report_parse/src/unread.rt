ghost use Rattle.std.specs.Prelude.{◌≡◌};
ghost use Rattle.report_parse.specs.declared.unread.Unread.TheVariants.{NoMemory as OutOfMemory};

use thor_value::NoMemory;

/// Why a part of a report isn't read.
#[derive(Clone, Copy, Debug, PartialEq, Eq)]
pub(crate) enum Unread {
    /// The bytes don't begin with it.
    Absent,
    /// Memory was not there.
    NoMemory,
}

impl From<NoMemory> for Unread {
    ghost from_gives = { λ _ e. e ≡ OutOfMemory };

    fn from(_missing: NoMemory) -> Unread {
        Unread::NoMemory
    }
}
