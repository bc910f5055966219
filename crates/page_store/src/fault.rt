ghost use Rattle.std.specs.Prelude.{◌≡◌};
ghost use Rattle.page_store.specs.Faults.{fault_of};
ghost use Rattle.page_store.specs.declared.fault.StoreFault.TheVariants.{NoMemory as Memory};

use disk_trait::Outage;
use std::alloc::{AllocError, AllocFailed};
use std::error::Error;
use std::fmt;
use thor_value::NoMemory;

/// Why a call on a store of pages didn't do its work.
#[derive(Clone, Copy, Debug, PartialEq, Eq)]
pub enum StoreFault {
    /// The disk of pages failed. Its count of faults rose in this call.
    Failed,
    /// The bytes at this place of the disk, where a side in use begins, are no page of objects with the
    /// page's number.
    Damaged { place: u64 },
    /// Memory was not there.
    NoMemory,
}

impl fmt::Display for StoreFault {
    fn fmt<W: fmt::Write>(&self, f: &mut fmt::Formatter<W>) -> fmt::Result {
        match self {
            StoreFault::Failed => write!(f, "the disk of pages failed"),
            StoreFault::Damaged { place } => write!(f, "the page at {place} is damaged"),
            StoreFault::NoMemory => write!(f, "out of memory"),
        }
    }
}

impl Error for StoreFault {}

impl From<Outage> for StoreFault {
    ghost from_gives = { λ outage fault. fault ≡ fault_of outage };

    fn from(outage: Outage) -> StoreFault {
        match outage {
            Outage::Failed => StoreFault::Failed,
            Outage::NoMemory => StoreFault::NoMemory,
        }
    }
}

impl From<AllocError> for StoreFault {
    ghost from_gives = { λ _ fault. fault ≡ Memory };

    fn from(_refused: AllocError) -> StoreFault {
        StoreFault::NoMemory
    }
}

impl<T: Drop> From<AllocFailed<T>> for StoreFault {
    ghost from_gives = { λ _ fault. fault ≡ Memory };

    fn from(_refused: AllocFailed<T>) -> StoreFault {
        StoreFault::NoMemory
    }
}

impl From<NoMemory> for StoreFault {
    ghost from_gives = { λ _ fault. fault ≡ Memory };

    fn from(_refused: NoMemory) -> StoreFault {
        StoreFault::NoMemory
    }
}
