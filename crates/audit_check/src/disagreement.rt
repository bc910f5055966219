ghost use Rattle.std.specs.Prelude.{◌≡◌};

use thor_value::NoMemory;

/// The first line of a report that isn't true of the script.
#[derive(Clone, Copy, Debug, PartialEq, Eq)]
pub enum Disagreement {
    /// This line of the history, counted from 1: with it the lines up to it are no legal history of the script's items.
    Entry { index: u64 },
    /// The history is legal, and this line of an item, counted from 1, isn't what the history says, or isn't that of the
    /// next item; or it is missing.
    Item { index: u64 },
}

/// Why a report isn't found to be true of a script.
#[derive(Clone, Copy, Debug, PartialEq, Eq)]
pub enum AuditFault {
    /// It isn't, and this is the first line that disagrees.
    Disagrees(Disagreement),
    /// Memory was not there.
    NoMemory,
}

impl From<NoMemory> for AuditFault {
    ghost use Rattle.audit_check.specs.declared.disagreement.AuditFault.TheVariants as fault;

    ghost from_gives = { λ _ made. made ≡ fault.NoMemory };

    fn from(_missing: NoMemory) -> AuditFault {
        AuditFault::NoMemory
    }
}
