//! Why a run has no report.

use outside::Failed;
use repo_opening::Unopened;
use script_parse::ReadError;
use simulation_setup::Unbegun;
use thor_value::NoMemory;
use top_reply::{Status, Untold};

/// Why a run has no report.
#[derive(Clone, Copy)]
pub(crate) enum Fault {
    /// The script or the schedule isn't one that is accepted.
    Refused,
    /// What came of it couldn't be written.
    Unwritten,
    /// Memory was not there, or the run didn't pass the check of its own history.
    NoMemory,
}

impl Fault {
    /// The status of the program `kilntaupe` for it.
    pub(crate) fn status(self) -> Status {
        match self {
            Fault::Refused => Status::Script,
            Fault::Unwritten => Status::SinkFault,
            Fault::NoMemory => Status::NoMemory,
        }
    }
}

impl From<NoMemory> for Fault {
    fn from(_missing: NoMemory) -> Fault {
        Fault::NoMemory
    }
}

impl From<Untold> for Fault {
    fn from(_why: Untold) -> Fault {
        Fault::NoMemory
    }
}

impl From<Failed> for Fault {
    fn from(_failed: Failed) -> Fault {
        Fault::Unwritten
    }
}

impl From<Unbegun> for Fault {
    fn from(why: Unbegun) -> Fault {
        match why {
            Unbegun::Refused => Fault::Refused,
            Unbegun::NoMemory => Fault::NoMemory,
        }
    }
}

impl From<ReadError> for Fault {
    fn from(error: ReadError) -> Fault {
        match error {
            ReadError::Refused(_) => Fault::Refused,
            ReadError::NoMemory => Fault::NoMemory,
        }
    }
}

impl From<Unopened> for Fault {
    /// A store in memory is opened but for want of memory.
    fn from(_why: Unopened) -> Fault {
        Fault::NoMemory
    }
}
