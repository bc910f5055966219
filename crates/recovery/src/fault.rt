ghost use Rattle.std.specs.Prelude.{◌≡◌};
ghost use Rattle.recovery.specs.Faults.{found_fault};
ghost use Rattle.recovery.specs.declared.fault.RecoverFault.TheVariants.{NoMemory as OutOfMemory};

use commit_log::FindFault;
use std::fmt;
use thor_value::NoMemory;

/// Why a repository wasn't recovered.
#[derive(Clone, Copy, Debug, PartialEq, Eq)]
pub enum RecoverFault {
    /// A disk failed. Its count of faults rose in this call.
    Failed { disk: u8 },
    /// The log disk has no bytes of a repository: a header, a checkpoint or a record is none. The place is
    /// that of its gate, 0 for the header and the checkpoint.
    Damaged { disk: u8, place: u64 },
    /// Memory was not there.
    NoMemory,
}

impl fmt::Display for RecoverFault {
    fn fmt<W: fmt::Write>(&self, f: &mut fmt::Formatter<W>) -> fmt::Result {
        match self {
            RecoverFault::Failed { disk } => write!(f, "disk {disk} failed"),
            RecoverFault::Damaged { disk, place } => {
                write!(f, "disk {disk} is damaged at {place}")
            }
            RecoverFault::NoMemory => write!(f, "out of memory"),
        }
    }
}

impl From<NoMemory> for RecoverFault {
    ghost from_gives = { λ _ fault. fault ≡ OutOfMemory };

    fn from(_refused: NoMemory) -> RecoverFault {
        RecoverFault::NoMemory
    }
}

/// A fault of finding logs.
pub(crate) fn found_fault(fault: FindFault) -> RecoverFault
    ensures { result ≡ found_fault fault }
{
    match fault {
        FindFault::Failed { disk } => RecoverFault::Failed { disk },
        FindFault::Damaged { disk, place } => RecoverFault::Damaged { disk, place },
        FindFault::NoMemory => RecoverFault::NoMemory,
    }
}
