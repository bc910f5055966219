ghost use Rattle.std.specs.Prelude.{◌≡◌};
ghost use Rattle.log_frame.specs.Faults.{fault_of};
ghost use Rattle.log_frame.specs.declared.fault.LogFault.TheVariants.{NoMemory as Memory};

use disk_trait::Outage;
use std::alloc::{AllocError, AllocFailed};
use std::fmt;

/// Why a call on a log didn't do its work. After it the log is opened again.
#[derive(Clone, Copy, Debug, PartialEq, Eq)]
pub enum LogFault {
    /// The disk failed. Its count of faults rose in this call.
    Failed,
    /// The open header or record at this place runs past the disk's end, or no gate stands behind it.
    Damaged { place: u64 },
    /// Memory was not there.
    NoMemory,
}

impl fmt::Display for LogFault {
    fn fmt<W: fmt::Write>(&self, f: &mut fmt::Formatter<W>) -> fmt::Result {
        match self {
            LogFault::Failed => write!(f, "the disk failed"),
            LogFault::Damaged { place } => write!(f, "the log is damaged at {place}"),
            LogFault::NoMemory => write!(f, "out of memory"),
        }
    }
}

impl From<Outage> for LogFault {
    ghost from_gives = { λ outage fault. fault ≡ fault_of outage };

    fn from(outage: Outage) -> LogFault {
        match outage {
            Outage::Failed => LogFault::Failed,
            Outage::NoMemory => LogFault::NoMemory,
        }
    }
}

impl From<AllocError> for LogFault {
    ghost from_gives = { λ _ fault. fault ≡ Memory };

    fn from(_refused: AllocError) -> LogFault {
        LogFault::NoMemory
    }
}

impl<T: Drop> From<AllocFailed<T>> for LogFault {
    ghost from_gives = { λ _ fault. fault ≡ Memory };

    fn from(_refused: AllocFailed<T>) -> LogFault {
        LogFault::NoMemory
    }
}

impl From<thor_value::NoMemory> for LogFault {
    ghost from_gives = { λ _ fault. fault ≡ Memory };

    fn from(_refused: thor_value::NoMemory) -> LogFault {
        LogFault::NoMemory
    }
}
