//! The headers of log disks are closed.

ghost use Rattle.disk_trait.specs.Numbers.{number};
ghost use Rattle.std.specs.Prelude.{◌≡◌, ◌<◌, IfOk, IsErrOf, None, OnOk, false};
ghost use Rattle.disk_trait.specs.AllDisks.{AllSettled};
ghost use Rattle.disk_trait.specs.Disks.{Disks, IsSettled, NoNewImage, OnDisk, WhereTold};
ghost use Rattle.disk_trait.specs.declared.parts.Outage.TheVariants.{Failed};
ghost use Rattle.log_frame.specs.Log.{read_log};
ghost use Rattle.repo_durable.specs.Failing.{HasFailed};

use disk_trait::{Disk, Outage, Parts};

/// The gate of a header that is open.
const OPEN: u8 = 1;

/// Closes the header of a log disk, where it is open.
#[tactic(auto, using(disk_trait::proofs::Runs::alone_then, disk_trait::proofs::Several::all_settled, disk_trait::proofs::Several::settled_still, crate::proofs::Failed::failed_second))]
pub(crate) fn close_header<P: Parts>(parts: &mut P, disk: Disk) -> Result<(), Outage>
    requires log { (number disk) < 2 }
    requires settled { AllSettled (P.disks parts.old) }
    ensures alone { OnDisk (P.disks parts.old) (P.disks parts.new) (number disk) }
    ensures settled { OnOk result (AllSettled (P.disks parts.new)) }
    ensures closed { OnOk result (WhereTold (P.disks parts.new) (number disk) (λ bytes. read_log bytes ≡ None)) }
    ensures failed { IsErrOf result Failed → HasFailed (P.disks parts.old).faults (P.disks parts.new).faults }
{
    if is_open(parts, disk)? {
        close(parts, disk)
    } else {
        Ok(())
    }
}

/// Whether a log disk has an open header: its length, and a read of the first byte where two stand there.
#[tactic(auto, using(disk_trait::proofs::Runs::alone_then, crate::proofs::Failed::call_failed, crate::proofs::Failed::call_failed_second))]
fn is_open<P: Parts>(parts: &mut P, disk: Disk) -> Result<bool, Outage>
    requires { (number disk) < 2 }
    ensures alone { OnDisk (P.disks parts.old) (P.disks parts.new) (number disk) }
    ensures content { (P.disks parts.new).content (number disk) ≡ (P.disks parts.old).content (number disk) }
    ensures crash { NoNewImage (P.disks parts.old) (P.disks parts.new) (number disk) }
    ensures closed { IfOk result (λ found. found ≡ false → WhereTold (P.disks parts.old) (number disk) (λ bytes. read_log bytes ≡ None)) }
    ensures failed { IsErrOf result Failed → HasFailed (P.disks parts.old).faults (P.disks parts.new).faults }
{
    let length = parts.len(disk)?;
    if length < 2 {
        return Ok(false);
    }
    let mut gate = [0u8; 1];
    parts.read_at(disk, 0, &mut gate)?;
    Ok(gate[0] == OPEN)
}

/// Closes a header.
#[tactic(auto, using(disk_trait::proofs::Runs::alone_then, crate::proofs::Failed::call_failed, crate::proofs::Failed::call_failed_second))]
fn close<P: Parts>(parts: &mut P, disk: Disk) -> Result<(), Outage>
    requires { (number disk) < 2 }
    ensures alone { OnDisk (P.disks parts.old) (P.disks parts.new) (number disk) }
    ensures settled { OnOk result (IsSettled (P.disks parts.new) (number disk)) }
    ensures closed { OnOk result (WhereTold (P.disks parts.new) (number disk) (λ bytes. read_log bytes ≡ None)) }
    ensures failed { IsErrOf result Failed → HasFailed (P.disks parts.old).faults (P.disks parts.new).faults }
{
    parts.write_at(disk, 0, &[0u8])?;
    parts.sync(disk)
}
