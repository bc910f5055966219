// A record is written behind the last gate, and then the gate is opened.
ghost use Rattle.disk_trait.specs.Numbers.{number};
ghost use Rattle.std.specs.Prelude.{◌≡◌, ◌+◌, ◌-◌, ◌^◌, ◌≤◌, ◌<◌, ℕ, List, length, IfOk, OnOk, IsErrOf};
ghost use Rattle.disk_trait.specs.Disks.{Disks, OnDisk, Leaves, WhereTold, IsSettled, Rose};
ghost use Rattle.log_frame.specs.Log.{Opened, Stands, IsBeforeOrAfter, with_body, closed_record, end_of};
ghost use Rattle.log_frame.specs.declared.fault.LogFault.TheVariants.{Damaged, Failed, NoMemory as OutOfMemory};

use crate::fault::LogFault;
use crate::reading::{CLOSED, OPEN};
use disk_trait::{Disk, Parts};
use std::alloc::Global;

/// A record behind its gate, and the closed gate behind it. Want of memory where the body is longer than
/// a `u32` can tell.
pub(crate) fn closed_record(alloc: Global, body: &[u8]) -> Result<Vec<u8>, LogFault>
    ensures bytes { IfOk result (λ put. put.items ≡ closed_record body.now) }
    ensures fits { OnOk result (length body.now < 2 ^ 32) }
    ensures damaged { (place : ℕ) → IsErrOf result (Damaged place) → ⊥ }
    ensures failed { IsErrOf result Failed → ⊥ }
{
    let Ok(len) = u32::try_from(body.len()) else {
        return Err(LogFault::NoMemory);
    };
    let mut put = Vec::with_capacity(alloc, body.len() + 5)?;
    put.extend_from_slice(&len.to_be_bytes())?;
    put.extend_from_slice(body)?;
    put.push(CLOSED)?;
    Ok(put)
}

/// Puts a record behind the gate at a place and opens the gate: four device calls.
#[tactic(auto, using(disk_trait::proofs::Runs::alone_then))]
pub(crate) fn append_at<P: Parts>(
    parts: &mut P,
    disk: Disk,
    end: u64,
    put: &[u8],
) -> Result<(), LogFault>
    requires fits { end < 2 ^ 64 - 1 }
    requires settled { IsSettled (P.disks parts.old) (number disk) }
    ensures alone { OnDisk (P.disks parts.old) (P.disks parts.new) (number disk) }
    ensures any_moment { (opened : Opened) (body : List ℕ) → put.now ≡ closed_record body → length body < 2 ^ 32 → end ≡ end_of opened → WhereTold (P.disks parts.old) (number disk) (λ bytes. Stands bytes opened → Leaves (P.disks parts.old) (P.disks parts.new) (number disk) (IsBeforeOrAfter opened body)) }
    ensures appended { OnOk result ((opened : Opened) (body : List ℕ) → put.now ≡ closed_record body → length body < 2 ^ 32 → end ≡ end_of opened → WhereTold (P.disks parts.old) (number disk) (λ bytes. Stands bytes opened → WhereTold (P.disks parts.new) (number disk) (λ final. Stands final (with_body opened body)))) }
    ensures settled { OnOk result (IsSettled (P.disks parts.new) (number disk)) }
    ensures calls { OnOk result ((P.disks parts.old).time + 4 < 2 ^ 64 → (P.disks parts.new).time ≡ (P.disks parts.old).time + 4) }
    ensures near { OnOk result (end + 1 + length put.now ≤ 2 ^ 40) }
    ensures damaged { (place : ℕ) → IsErrOf result (Damaged place) → ⊥ }
    ensures failed { IsErrOf result Failed → Rose ((P.disks parts.old).faults (number disk)) ((P.disks parts.new).faults (number disk)) }
    ensures steady { OnOk result ((P.disks parts.new).faults (number disk) ≡ (P.disks parts.old).faults (number disk)) }
    ensures wanting { IsErrOf result OutOfMemory → (P.disks parts.new).faults (number disk) ≡ (P.disks parts.old).faults (number disk) }
{
    parts.write_at(disk, end + 1, put)?;
    parts.sync(disk)?;
    parts.write_at(disk, end, &[OPEN])?;
    parts.sync(disk)?;
    Ok(())
}
