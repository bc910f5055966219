//! What concerns all three disks of a repository at once.

ghost use Rattle.std.specs.Prelude.{◌<◌, ℕ, List, OnOk, IsErrOf};
ghost use Rattle.disk_trait.specs.AllDisks.{AllSettled, LeavesAll, MayLeaveAll, NoFault, ReadsAs};
ghost use Rattle.disk_trait.specs.Disks.{Rose};
ghost use Rattle.disk_trait.specs.declared.parts.Outage.TheVariants.{Failed, NoMemory};

use crate::disk::Disk;
use crate::parts::{Outage, Parts};

/// Crashes all disks and starts them again. After `Ok` they read images that a crash could leave, and a
/// crash leaves only these. After an outage some of them were started again.
#[tactic(auto, using(crate::proofs::Several::all_restarted, crate::proofs::Several::no_fault_beside))]
pub fn restart_all<P: Parts>(parts: &mut P, pick: u64) -> Result<(), Outage>
    ensures any_moment { LeavesAll (P.disks parts.old) (P.disks parts.new) (MayLeaveAll (P.disks parts.old) (P.disks parts.old).time) }
    ensures settled { OnOk result (AllSettled (P.disks parts.new)) }
    ensures steady { OnOk result (NoFault (P.disks parts.old) (P.disks parts.new)) }
    ensures wanting { IsErrOf result NoMemory → NoFault (P.disks parts.old) (P.disks parts.new) }
    ensures failed { IsErrOf result Failed → (d : ℕ) × (d < 3) × Rose ((P.disks parts.old).faults d) ((P.disks parts.new).faults d) }
{
    parts.restart(Disk::Log0, pick)?;
    parts.restart(Disk::Log1, pick)?;
    parts.restart(Disk::Pages, pick)
}

/// A law of all parts, with an empty body: what a read of the disks gives is one of the choices that a
/// crash may leave.
pub fn content_is_left<P: Parts>(parts: &P)
    ensures { (bytes : ℕ → List ℕ) → ReadsAs (P.disks parts.now) bytes → MayLeaveAll (P.disks parts.now) (P.disks parts.now).time bytes }
{}
