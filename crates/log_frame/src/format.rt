// A new log is written over what stood on a disk: its header is closed first and opened last.
ghost use Rattle.disk_trait.specs.Numbers.{number};
ghost use Rattle.std.specs.Prelude.{◌≡◌, ◌≢◌, ◌+◌, ◌-◌, ◌^◌, ◌≤◌, ◌<◌, ℕ, List, length, slice_index, true, false, IfOk, OnOk, IsErrOf, Ok};
ghost use Rattle.disk_trait.specs.Disks.{Disks, OnDisk, Leaves, WhereTold, MayLeave, IsSettled, NoNewImage, Rose};
ghost use Rattle.log_frame.specs.Log.{Stands, new_log, header_bytes, IsShut, MayBeOpen, IsOldOrShut, IsShutOrNew, IsOldOrNew};
ghost use Rattle.log_frame.specs.declared.fault.LogFault.TheVariants.{Damaged, Failed, NoMemory as OutOfMemory};
ghost use Rattle.log_frame.specs.declared.format.Header.TheVariants.{Shut, OpenOrShort};

use crate::append::closed_record;
use crate::fault::LogFault;
use crate::reading::{CLOSED, OPEN};
use disk_trait::{Disk, Parts};
use std::alloc::Global;

/// What stands behind the header's gate of a new log.
pub(crate) fn spell_header(alloc: Global, sequence: u64, head: &[u8]) -> Result<Vec<u8>, LogFault>
    ensures bytes { IfOk result (λ put. put.items ≡ header_bytes sequence head.now) }
    ensures fits { OnOk result (length head.now < 2 ^ 32) }
    ensures damaged { (place : ℕ) → IsErrOf result (Damaged place) → ⊥ }
    ensures failed { IsErrOf result Failed → ⊥ }
{
    let record = closed_record(alloc, head)?;
    let mut put = Vec::with_capacity(alloc, 8)?;
    put.extend_from_slice(&sequence.to_be_bytes())?;
    put.extend_from_slice(&record)?;
    Ok(put)
}

/// What is known of a disk's header before a new log is written over it.
#[derive(Clone, Copy, PartialEq, Eq)]
enum Header {
    /// Its gate stands there and isn't open.
    Shut,
    /// It is open, or there is no room for one.
    OpenOrShort,
}

/// Looks at a disk's header: `len`, and a read of the first byte where two stand there.
#[tactic(auto, using(disk_trait::proofs::Runs::alone_then, disk_trait::proofs::Runs::still_none, disk_trait::proofs::Runs::still_call, crate::proofs::Stills::call_then_still))]
fn look<P: Parts>(parts: &mut P, disk: Disk) -> Result<Header, LogFault>
    ensures alone { OnDisk (P.disks parts.old) (P.disks parts.new) (number disk) }
    ensures content { (P.disks parts.new).content (number disk) ≡ (P.disks parts.old).content (number disk) }
    ensures crash { NoNewImage (P.disks parts.old) (P.disks parts.new) (number disk) }
    ensures still { Leaves (P.disks parts.old) (P.disks parts.new) (number disk) (MayLeave (P.disks parts.old) (number disk)) }
    ensures shut { result ≡ Ok Shut → WhereTold (P.disks parts.old) (number disk) IsShut }
    ensures open { result ≡ Ok OpenOrShort → WhereTold (P.disks parts.old) (number disk) MayBeOpen }
    ensures damaged { (place : ℕ) → IsErrOf result (Damaged place) → ⊥ }
    ensures failed { IsErrOf result Failed → Rose ((P.disks parts.old).faults (number disk)) ((P.disks parts.new).faults (number disk)) }
    ensures steady { OnOk result ((P.disks parts.new).faults (number disk) ≡ (P.disks parts.old).faults (number disk)) }
    ensures wanting { IsErrOf result OutOfMemory → (P.disks parts.new).faults (number disk) ≡ (P.disks parts.old).faults (number disk) }
{
    if parts.len(disk)? < 2 {
        return Ok(Header::OpenOrShort);
    }
    look_at_gate(parts, disk)
}

/// Looks at a disk's header by its first byte.
#[tactic(auto, using(disk_trait::proofs::Runs::still_none, disk_trait::proofs::Runs::still_call))]
fn look_at_gate<P: Parts>(parts: &mut P, disk: Disk) -> Result<Header, LogFault>
    requires two { WhereTold (P.disks parts.old) (number disk) (λ bytes. 2 ≤ length bytes) }
    ensures alone { OnDisk (P.disks parts.old) (P.disks parts.new) (number disk) }
    ensures content { (P.disks parts.new).content (number disk) ≡ (P.disks parts.old).content (number disk) }
    ensures crash { NoNewImage (P.disks parts.old) (P.disks parts.new) (number disk) }
    ensures still { Leaves (P.disks parts.old) (P.disks parts.new) (number disk) (MayLeave (P.disks parts.old) (number disk)) }
    ensures shut { result ≡ Ok Shut → WhereTold (P.disks parts.old) (number disk) IsShut }
    ensures open { result ≡ Ok OpenOrShort → WhereTold (P.disks parts.old) (number disk) MayBeOpen }
    ensures damaged { (place : ℕ) → IsErrOf result (Damaged place) → ⊥ }
    ensures failed { IsErrOf result Failed → Rose ((P.disks parts.old).faults (number disk)) ((P.disks parts.new).faults (number disk)) }
    ensures steady { OnOk result ((P.disks parts.new).faults (number disk) ≡ (P.disks parts.old).faults (number disk)) }
    ensures wanting { IsErrOf result OutOfMemory → (P.disks parts.new).faults (number disk) ≡ (P.disks parts.old).faults (number disk) }
{
    let mut gate = [CLOSED];
    parts.read_at(disk, 0, &mut gate)?;
    if gate[0] == OPEN {
        Ok(Header::OpenOrShort)
    } else {
        Ok(Header::Shut)
    }
}

/// Closes a header.
#[tactic(auto, using(disk_trait::proofs::Runs::alone_then))]
fn shut<P: Parts>(parts: &mut P, disk: Disk) -> Result<(), LogFault>
    requires settled { IsSettled (P.disks parts.old) (number disk) }
    requires may_be_open { WhereTold (P.disks parts.old) (number disk) MayBeOpen }
    ensures alone { OnDisk (P.disks parts.old) (P.disks parts.new) (number disk) }
    ensures any_moment { WhereTold (P.disks parts.old) (number disk) (λ bytes. Leaves (P.disks parts.old) (P.disks parts.new) (number disk) (IsOldOrShut bytes)) }
    ensures shut { OnOk result (WhereTold (P.disks parts.new) (number disk) IsShut) }
    ensures settled { OnOk result (IsSettled (P.disks parts.new) (number disk)) }
    ensures damaged { (place : ℕ) → IsErrOf result (Damaged place) → ⊥ }
    ensures failed { IsErrOf result Failed → Rose ((P.disks parts.old).faults (number disk)) ((P.disks parts.new).faults (number disk)) }
    ensures steady { OnOk result ((P.disks parts.new).faults (number disk) ≡ (P.disks parts.old).faults (number disk)) }
    ensures wanting { IsErrOf result OutOfMemory → (P.disks parts.new).faults (number disk) ≡ (P.disks parts.old).faults (number disk) }
{
    parts.write_at(disk, 0, &[CLOSED])?;
    parts.sync(disk)?;
    Ok(())
}

/// Closes a disk's header, where it isn't closed yet.
#[tactic(auto, using(disk_trait::proofs::Runs::alone_then))]
pub(crate) fn close_header<P: Parts>(parts: &mut P, disk: Disk) -> Result<(), LogFault>
    requires settled { IsSettled (P.disks parts.old) (number disk) }
    ensures alone { OnDisk (P.disks parts.old) (P.disks parts.new) (number disk) }
    ensures any_moment { WhereTold (P.disks parts.old) (number disk) (λ bytes. Leaves (P.disks parts.old) (P.disks parts.new) (number disk) (IsOldOrShut bytes)) }
    ensures shut { OnOk result (WhereTold (P.disks parts.new) (number disk) IsShut) }
    ensures settled { OnOk result (IsSettled (P.disks parts.new) (number disk)) }
    ensures damaged { (place : ℕ) → IsErrOf result (Damaged place) → ⊥ }
    ensures failed { IsErrOf result Failed → Rose ((P.disks parts.old).faults (number disk)) ((P.disks parts.new).faults (number disk)) }
    ensures steady { OnOk result ((P.disks parts.new).faults (number disk) ≡ (P.disks parts.old).faults (number disk)) }
    ensures wanting { IsErrOf result OutOfMemory → (P.disks parts.new).faults (number disk) ≡ (P.disks parts.old).faults (number disk) }
{
    match look(parts, disk)? {
        // A crash could open a closed header that is written over.
        Header::Shut => Ok(()),
        Header::OpenOrShort => shut(parts, disk),
    }
}

/// Writes a new log behind a closed header, and opens the header: four device calls.
#[tactic(auto, using(disk_trait::proofs::Runs::alone_then))]
pub(crate) fn open_header<P: Parts>(parts: &mut P, disk: Disk, put: &[u8]) -> Result<(), LogFault>
    requires settled { IsSettled (P.disks parts.old) (number disk) }
    requires shut { WhereTold (P.disks parts.old) (number disk) IsShut }
    ensures alone { OnDisk (P.disks parts.old) (P.disks parts.new) (number disk) }
    ensures any_moment { (sequence : ℕ) (head : List ℕ) → put.now ≡ header_bytes sequence head → sequence < 2 ^ 64 → length head < 2 ^ 32 → WhereTold (P.disks parts.old) (number disk) (λ bytes. Leaves (P.disks parts.old) (P.disks parts.new) (number disk) (IsShutOrNew (new_log sequence head))) }
    ensures formatted { OnOk result ((sequence : ℕ) (head : List ℕ) → put.now ≡ header_bytes sequence head → sequence < 2 ^ 64 → length head < 2 ^ 32 → WhereTold (P.disks parts.old) (number disk) (λ bytes. WhereTold (P.disks parts.new) (number disk) (λ final. Stands final (new_log sequence head)))) }
    ensures settled { OnOk result (IsSettled (P.disks parts.new) (number disk)) }
    ensures near { OnOk result (1 + length put.now ≤ 2 ^ 40) }
    ensures damaged { (place : ℕ) → IsErrOf result (Damaged place) → ⊥ }
    ensures failed { IsErrOf result Failed → Rose ((P.disks parts.old).faults (number disk)) ((P.disks parts.new).faults (number disk)) }
    ensures steady { OnOk result ((P.disks parts.new).faults (number disk) ≡ (P.disks parts.old).faults (number disk)) }
    ensures wanting { IsErrOf result OutOfMemory → (P.disks parts.new).faults (number disk) ≡ (P.disks parts.old).faults (number disk) }
{
    parts.write_at(disk, 1, put)?;
    parts.sync(disk)?;
    parts.write_at(disk, 0, &[OPEN])?;
    parts.sync(disk)?;
    Ok(())
}

/// Writes a new log over what stood on a disk.
#[tactic(auto, using(disk_trait::proofs::Runs::alone_then))]
pub(crate) fn write_log<P: Parts>(parts: &mut P, disk: Disk, put: &[u8]) -> Result<(), LogFault>
    requires settled { IsSettled (P.disks parts.old) (number disk) }
    ensures alone { OnDisk (P.disks parts.old) (P.disks parts.new) (number disk) }
    ensures any_moment { (sequence : ℕ) (head : List ℕ) → put.now ≡ header_bytes sequence head → sequence < 2 ^ 64 → length head < 2 ^ 32 → WhereTold (P.disks parts.old) (number disk) (λ bytes. Leaves (P.disks parts.old) (P.disks parts.new) (number disk) (IsOldOrNew bytes (new_log sequence head))) }
    ensures formatted { OnOk result ((sequence : ℕ) (head : List ℕ) → put.now ≡ header_bytes sequence head → sequence < 2 ^ 64 → length head < 2 ^ 32 → WhereTold (P.disks parts.old) (number disk) (λ bytes. WhereTold (P.disks parts.new) (number disk) (λ final. Stands final (new_log sequence head)))) }
    ensures settled { OnOk result (IsSettled (P.disks parts.new) (number disk)) }
    ensures near { OnOk result (1 + length put.now ≤ 2 ^ 40) }
    ensures damaged { (place : ℕ) → IsErrOf result (Damaged place) → ⊥ }
    ensures failed { IsErrOf result Failed → Rose ((P.disks parts.old).faults (number disk)) ((P.disks parts.new).faults (number disk)) }
    ensures steady { OnOk result ((P.disks parts.new).faults (number disk) ≡ (P.disks parts.old).faults (number disk)) }
    ensures wanting { IsErrOf result OutOfMemory → (P.disks parts.new).faults (number disk) ≡ (P.disks parts.old).faults (number disk) }
{
    close_header(parts, disk)?;
    open_header(parts, disk, put)
}
