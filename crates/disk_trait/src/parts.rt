ghost use Rattle.disk_trait.specs.Numbers.{number};
ghost use Rattle.std.specs.Prelude.{◌≡◌, ◌+◌, ◌^◌, ◌<◌, ◌≤◌, ◌↔◌, ℕ, List, length, max, Some, IsTrue};
ghost use Rattle.disk_trait.specs.Disks.{Disks, WhereTold, MayLeave, SameDisks};
ghost use Rattle.disk_trait.specs.Calls.{Reads, Writes, Syncs, TellsLength, Restarts};
ghost use Rattle.disk_trait.specs.declared.parts.Outage.TheVariants.{NoMemory};

use crate::disk::Disk;
use std::alloc::{AllocError, AllocFailed};
use std::fmt;

/// Why a call on a disk didn't do its work.
#[derive(Clone, Copy, Debug, PartialEq, Eq)]
pub enum Outage {
    /// The disk failed. Its count of faults rose in this call.
    Failed,
    /// Memory was not there.
    NoMemory,
}

impl fmt::Display for Outage {
    fn fmt<W: fmt::Write>(&self, f: &mut fmt::Formatter<W>) -> fmt::Result {
        match self {
            Outage::Failed => write!(f, "the disk failed"),
            Outage::NoMemory => write!(f, "out of memory"),
        }
    }
}

impl From<AllocError> for Outage {
    ghost from_gives = { λ _ outage. outage ≡ NoMemory };

    fn from(_refused: AllocError) -> Outage {
        Outage::NoMemory
    }
}

impl<T: Drop> From<AllocFailed<T>> for Outage {
    ghost from_gives = { λ _ outage. outage ≡ NoMemory };

    fn from(_refused: AllocFailed<T>) -> Outage {
        Outage::NoMemory
    }
}

/// The greatest place at which a write may end.
pub const FARTHEST_END: u64 = 1 << 40;

/// Whether a write of so many bytes at a place would end too far.
pub(crate) fn ends_too_far(at: u64, len: usize) -> bool
    ensures { IsTrue result ↔ (2 ^ 40 < at + len) }
{
    match at.checked_add(len as u64) {
        Some(end) => end > FARTHEST_END,
        None => true,
    }
}

/// A repository's three disks, numbered 0 to 2, and its clock.
///
/// Between two syncs of a disk a crash may leave any bytes in each written range and past the old end,
/// at any length from the least to the greatest since the sync. After a sync it leaves what a read gives.
pub trait Parts: Drop {
    /// What contracts see of the parts.
    ghost disks: { Self → Disks };

    /// `asked parts now then`: the clock, asked, may give the number `now`, and the parts be `then`
    /// afterwards.
    ghost asked: { Self → ℕ → Self → Type 0 };

    /// Reads bytes into the whole of `into`, from `at` on. Where the content isn't told, a range that
    /// passes the disk's end is `Failed`.
    fn read_at(&mut self, disk: Disk, at: u64, into: &mut [u8]) -> Result<(), Outage>
        requires within { WhereTold (disks self.old) (number disk) (λ bytes. at + length into.old ≤ length bytes) }
        ensures { Reads (disks self.old) (disks self.new) (number disk) at into.old into.new result };

    /// Writes over what is there, and past the end, where a gap is filled with zeros. A write whose end
    /// would be above 2 ^ 40 is `Failed` and changes nothing.
    fn write_at(&mut self, disk: Disk, at: u64, bytes: &[u8]) -> Result<(), Outage>
        ensures { Writes (disks self.old) (disks self.new) (number disk) at bytes.now result };

    /// Makes what was written stay: after `Ok` a crash leaves what a read gives.
    fn sync(&mut self, disk: Disk) -> Result<(), Outage>
        ensures { Syncs (disks self.old) (disks self.new) (number disk) result };

    /// How many bytes a disk has.
    fn len(&mut self, disk: Disk) -> Result<u64, Outage>
        ensures { TellsLength (disks self.old) (disks self.new) (number disk) result };

    /// Crashes a disk and starts it again. After `Ok` it reads one of the images that a crash could
    /// leave, and a crash leaves only that. Which one is for the parts to choose by the pick.
    fn restart(&mut self, disk: Disk, pick: u64) -> Result<(), Outage>
        ensures { Restarts (disks self.old) (disks self.new) (number disk) result };

    /// Asks the clock, which may give any number.
    fn now(&mut self) -> u64
        ensures disks { SameDisks (disks self.old) (disks self.new) }
        ensures clock { (disks self.new).clock ≡ max (disks self.old).clock result }
        ensures asked { asked self.old result self.new };

    /// What a read gives is one of the images that a crash may leave.
    ghost reads: { (parts : Self) (d : ℕ) (bytes : List ℕ) → (disks parts).content d ≡ Some bytes → MayLeave (disks parts) d bytes };
}
