ghost use Rattle.disk_trait.specs.Numbers.{number};
ghost use Rattle.std.specs.Prelude.{◌≡◌, ◌+◌, ◌-◌, ◌^◌, ◌≤◌, ◌<◌, ℕ, List, length, IfOk, IfErr, IfSome, OnOk, IsErrOf, Some, None, Ok, Err};
ghost use Rattle.disk_trait.specs.Disks.{Disks, OnDisk, Leaves, WhereTold, MayLeave, IsSettled, NoNewImage, Rose};
ghost use Rattle.log_frame.specs.Log.{Opened, Place, Stands, Agrees, IsFound, IsBeforeOrAfter, IsOldOrNew, with_body, new_log, read_log};
ghost use Rattle.log_frame.specs.declared.fault.LogFault.TheVariants.{Damaged, Failed, NoMemory as OutOfMemory};

use crate::append::{append_at, closed_record};
use crate::fault::LogFault;
use crate::format::{spell_header, write_log};
use crate::reading::{Parsed, parse};
use disk_trait::{Disk, Parts};
use std::alloc::Global;
use std::marker::Model;
use thor_value::{Text, Texts};

/// The bodies of a log's records, the first one first.
pub type Records = Texts;

/// An open log on one of two disks: a sequence, a head, and records that are added one by one.
///
/// A crash at any moment leaves whole records. After a fault the log is opened again.
#[derive(Debug, Drop)]
pub struct Log {
    alloc: Global,
    disk: Disk,
    sequence: u64,
    /// The place of the gate behind the last record.
    end: u64,
}

impl Model for Log {
    ghost use Rattle.std.specs.Prelude.{◌-◌, ◌^◌, ◌<◌};
    ghost use Rattle.log_frame.specs.Log.{Place};
    ghost use Rattle.disk_trait.specs.Numbers.{number};

    ghost Value = { Place };

    ghost view = { λ log. record { disk = number log.disk; sequence = log.sequence; end = log.end } };

    ghost invariant = { λ log. (log.end < 2 ^ 64 - 1) × (number log.disk < 2) };
}

impl Log {
    /// Reads a log. `None` where the header isn't open.
    ///
    /// `Damaged` tells the place of the open header or record that runs past the disk's end or has no
    /// gate behind it. The disk stays as it was.
    pub fn open<P: Parts>(
        alloc: Global,
        parts: &mut P,
        disk: Disk,
    ) -> Result<Option<(Log, Text, Records)>, LogFault>
        requires { (number disk) < 2 }
        ensures alone { OnDisk (P.disks parts.old) (P.disks parts.new) (number disk) }
        ensures content { (P.disks parts.new).content (number disk) ≡ (P.disks parts.old).content (number disk) }
        ensures crash { NoNewImage (P.disks parts.old) (P.disks parts.new) (number disk) }
        ensures any_moment { Leaves (P.disks parts.old) (P.disks parts.new) (number disk) (MayLeave (P.disks parts.old) (number disk)) }
        ensures found { IfOk result (λ found. WhereTold (P.disks parts.old) (number disk) (λ bytes. IsFound (number disk) bytes found)) }
        ensures disk { IfOk result (λ found. IfSome found (λ f. f.0.disk ≡ (number disk))) }
        ensures damaged { (place : ℕ) → IsErrOf result (Damaged place) → WhereTold (P.disks parts.old) (number disk) (λ bytes. read_log bytes ≡ Some (Err place)) }
        ensures failed { IsErrOf result Failed → Rose ((P.disks parts.old).faults (number disk)) ((P.disks parts.new).faults (number disk)) }
        ensures steady { OnOk result ((P.disks parts.new).faults (number disk) ≡ (P.disks parts.old).faults (number disk)) }
        ensures wanting { IsErrOf result OutOfMemory → (P.disks parts.new).faults (number disk) ≡ (P.disks parts.old).faults (number disk) }
        ensures harmed { (place : ℕ) → IsErrOf result (Damaged place) → (P.disks parts.new).faults (number disk) ≡ (P.disks parts.old).faults (number disk) }
    {
        let bytes = read_disk(alloc, parts, disk)?;
        match parse(alloc, &bytes)? {
            None => Ok(None),
            Some(
                Parsed {
                    sequence,
                    head,
                    bodies,
                    end,
                },
            ) => {
                let log = Log {
                    alloc,
                    disk,
                    sequence,
                    end: end as u64,
                };
                Ok(Some((log, head, bodies)))
            }
        }
    }

    /// Writes a log without records over what stood on a disk.
    ///
    /// At each moment a crash leaves what stood there, or no open header, or the new log. Where the
    /// header was open or had no room it is closed first; it is opened last.
    pub fn format<P: Parts>(
        alloc: Global,
        parts: &mut P,
        disk: Disk,
        sequence: u64,
        head: &[u8],
    ) -> Result<Log, LogFault>
        requires there { (number disk) < 2 }
        requires settled { IsSettled (P.disks parts.old) (number disk) }
        ensures alone { OnDisk (P.disks parts.old) (P.disks parts.new) (number disk) }
        ensures any_moment { WhereTold (P.disks parts.old) (number disk) (λ bytes. Leaves (P.disks parts.old) (P.disks parts.new) (number disk) (IsOldOrNew bytes (new_log sequence head.now))) }
        ensures formatted { OnOk result (WhereTold (P.disks parts.old) (number disk) (λ bytes. WhereTold (P.disks parts.new) (number disk) (λ final. Stands final (new_log sequence head.now)))) }
        ensures kept { OnOk result (WhereTold (P.disks parts.old) (number disk) (λ bytes. (image : List ℕ) → MayLeave (P.disks parts.new) (number disk) image → Stands image (new_log sequence head.now))) }
        ensures settled { OnOk result (IsSettled (P.disks parts.new) (number disk)) }
        ensures agrees { IfOk result (λ log. WhereTold (P.disks parts.new) (number disk) (λ bytes. Agrees log bytes)) }
        ensures disk { IfOk result (λ log. log.disk ≡ (number disk)) }
        ensures sequence { IfOk result (λ log. log.sequence ≡ sequence) }
        ensures damaged { (place : ℕ) → IsErrOf result (Damaged place) → ⊥ }
        ensures failed { IsErrOf result Failed → Rose ((P.disks parts.old).faults (number disk)) ((P.disks parts.new).faults (number disk)) }
        ensures steady { OnOk result ((P.disks parts.new).faults (number disk) ≡ (P.disks parts.old).faults (number disk)) }
        ensures wanting { IsErrOf result OutOfMemory → (P.disks parts.new).faults (number disk) ≡ (P.disks parts.old).faults (number disk) }
    {
        let put = spell_header(alloc, sequence, head)?;
        write_log(parts, disk, &put)?;
        Ok(Log {
            alloc,
            disk,
            sequence,
            end: put.len() as u64,
        })
    }

    /// Adds a record: four device calls, before which the memory for its one buffer is taken.
    ///
    /// At each moment a crash leaves the records from before, or these and the new one. After `Ok` each
    /// crash leaves the new one. After a fault the log is opened again.
    pub fn append<P: Parts>(&mut self, parts: &mut P, body: &[u8]) -> Result<(), LogFault>
        requires settled { IsSettled (P.disks parts.old) self.old.disk }
        requires agrees { WhereTold (P.disks parts.old) self.old.disk (λ bytes. Agrees self.old bytes) }
        ensures alone { OnDisk (P.disks parts.old) (P.disks parts.new) self.old.disk }
        ensures any_moment { (opened : Opened) → WhereTold (P.disks parts.old) self.old.disk (λ bytes. Stands bytes opened → Leaves (P.disks parts.old) (P.disks parts.new) self.old.disk (IsBeforeOrAfter opened body.now)) }
        ensures appended { OnOk result ((opened : Opened) → WhereTold (P.disks parts.old) self.old.disk (λ bytes. Stands bytes opened → WhereTold (P.disks parts.new) self.old.disk (λ final. Stands final (with_body opened body.now)))) }
        ensures kept { OnOk result ((opened : Opened) → WhereTold (P.disks parts.old) self.old.disk (λ bytes. Stands bytes opened → (image : List ℕ) → MayLeave (P.disks parts.new) self.old.disk image → Stands image (with_body opened body.now))) }
        ensures settled { OnOk result (IsSettled (P.disks parts.new) self.old.disk) }
        ensures agrees { OnOk result (WhereTold (P.disks parts.new) self.old.disk (λ bytes. Agrees self.new bytes)) }
        ensures disk { self.new.disk ≡ self.old.disk }
        ensures sequence { self.new.sequence ≡ self.old.sequence }
        ensures calls { OnOk result ((P.disks parts.old).time + 4 < 2 ^ 64 → (P.disks parts.new).time ≡ (P.disks parts.old).time + 4) }
        ensures damaged { (place : ℕ) → IsErrOf result (Damaged place) → ⊥ }
        ensures failed { IsErrOf result Failed → Rose ((P.disks parts.old).faults self.old.disk) ((P.disks parts.new).faults self.old.disk) }
        ensures steady { OnOk result ((P.disks parts.new).faults self.old.disk ≡ (P.disks parts.old).faults self.old.disk) }
        ensures wanting { IsErrOf result OutOfMemory → (P.disks parts.new).faults self.old.disk ≡ (P.disks parts.old).faults self.old.disk }
    {
        let put = closed_record(self.alloc, body)?;
        append_at(parts, self.disk, self.end, &put)?;
        self.end += put.len() as u64;
        Ok(())
    }

    /// The sequence that the log was formatted with.
    pub fn sequence(&self) -> u64
        ensures { result ≡ self.now.sequence }
    {
        self.sequence
    }

    /// The disk that it stands on.
    pub fn disk(&self) -> u8
        ensures value { result ≡ self.now.disk }
        ensures within { result < 2 }
    {
        self.disk.number()
    }

    /// The other disk for logs.
    pub fn beside(&self) -> Disk
        ensures { number result ≡ 1 - self.now.disk }
    {
        match self.disk {
            Disk::Log0 => Disk::Log1,
            Disk::Log1 | Disk::Pages => Disk::Log0,
        }
    }
}

/// All the bytes of a disk.
#[tactic(auto, using(disk_trait::proofs::Runs::alone_then, disk_trait::proofs::Runs::still_none, disk_trait::proofs::Runs::still_call))]
fn read_disk<P: Parts>(alloc: Global, parts: &mut P, disk: Disk) -> Result<Vec<u8>, LogFault>
    ensures alone { OnDisk (P.disks parts.old) (P.disks parts.new) (number disk) }
    ensures content { (P.disks parts.new).content (number disk) ≡ (P.disks parts.old).content (number disk) }
    ensures crash { NoNewImage (P.disks parts.old) (P.disks parts.new) (number disk) }
    ensures any_moment { Leaves (P.disks parts.old) (P.disks parts.new) (number disk) (MayLeave (P.disks parts.old) (number disk)) }
    ensures all { IfOk result (λ all. WhereTold (P.disks parts.old) (number disk) (λ bytes. all.items ≡ bytes)) }
    ensures damaged { (place : ℕ) → IsErrOf result (Damaged place) → ⊥ }
    ensures failed { IsErrOf result Failed → Rose ((P.disks parts.old).faults (number disk)) ((P.disks parts.new).faults (number disk)) }
    ensures steady { OnOk result ((P.disks parts.new).faults (number disk) ≡ (P.disks parts.old).faults (number disk)) }
    ensures wanting { IsErrOf result OutOfMemory → (P.disks parts.new).faults (number disk) ≡ (P.disks parts.old).faults (number disk) }
{
    let len = parts.len(disk)?;
    let mut bytes = zeros(alloc, len)?;
    parts.read_at(disk, 0, &mut bytes)?;
    Ok(bytes)
}

/// So many bytes of 0.
fn zeros(alloc: Global, len: u64) -> Result<Vec<u8>, LogFault>
    ensures len { IfOk result (λ bytes. length bytes.items ≡ len) }
    ensures damaged { (place : ℕ) → IsErrOf result (Damaged place) → ⊥ }
    ensures failed { IsErrOf result Failed → ⊥ }
{
    let Ok(len) = usize::try_from(len) else {
        return Err(LogFault::NoMemory);
    };
    Ok(vec![in alloc; 0u8; len]?)
}
