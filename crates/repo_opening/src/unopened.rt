//! Why a store wasn't opened.

ghost use Rattle.repo_opening.specs.Told.{fault_of, outage_of};
ghost use Rattle.repo_opening.specs.declared.unopened.Unopened.TheVariants.{NoMemory as OutOfMemory};
ghost use Rattle.std.specs.Prelude.{IfOk, ◌≡◌};

use disk_trait::Outage;
use recovery::RecoverFault;
use thor_value::NoMemory;

/// Why a store wasn't opened.
#[derive(Clone, Copy, Debug, PartialEq, Eq)]
pub enum Unopened {
    /// A disk of the repository failed. Its count of faults rose.
    Failed { repo: u8 },
    /// The disks aren't a store's bytes, at a place of one of the repository's disks.
    Damaged { repo: u8, disk: u8, place: u64 },
    /// Memory was not there.
    NoMemory,
}

impl From<NoMemory> for Unopened {
    ghost from_gives = { λ _ fault. fault ≡ OutOfMemory };

    fn from(_refused: NoMemory) -> Unopened {
        Unopened::NoMemory
    }
}

/// A repository's fault as one of the store.
pub fn fault_of(repo: u8, fault: RecoverFault) -> Unopened
    ensures { result ≡ fault_of repo fault }
{
    match fault {
        RecoverFault::Failed { disk: _ } => Unopened::Failed { repo },
        RecoverFault::Damaged { disk, place } => Unopened::Damaged { repo, disk, place },
        RecoverFault::NoMemory => Unopened::NoMemory,
    }
}

/// An outage of a repository's disks as a fault of the store.
pub(crate) fn outage_of(repo: u8, outage: Outage) -> Unopened
    ensures { result ≡ outage_of repo outage }
{
    match outage {
        Outage::Failed => Unopened::Failed { repo },
        Outage::NoMemory => Unopened::NoMemory,
    }
}

/// The number of the repository at a place. There is no memory for more than a number can name.
pub fn number_at(place: usize) -> Result<u8, NoMemory>
    ensures { IfOk result (λ number. number ≡ place) }
{
    match u8::try_from(place) {
        Ok(number) => Ok(number),
        Err(_) => Err(NoMemory),
    }
}
