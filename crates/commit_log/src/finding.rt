//! Which of two logs counts.

ghost use Rattle.disk_trait.specs.Numbers.{number};
ghost use Rattle.std.specs.Option.{IfSome, option_and_then, option_map};
ghost use Rattle.std.specs.Prelude.{List, None, IfOk, IsErrOf, Ok, OnOk, Some, Err, ◌<◌, ◌≡◌, ℕ};
ghost use Rattle.disk_trait.specs.AllDisks.{AllSettled, LeavesAll, MayLeaveAll, NoFault, ReadsAs, SameContent};
ghost use Rattle.disk_trait.specs.Disks.{Disks, Leaves, MayLeave, NoNewImage, OnDisk, Rose, WhereTold};
ghost use Rattle.log_frame.specs.Log.{IsFound, Stands, read_log};
ghost use Rattle.log_codec.specs.declared.state.State.{State as AState};
ghost use Rattle.commit_log.specs.Holds.{Holds};
ghost use Rattle.commit_log.specs.Opening.{IsFresh, IsTorn, choice, fault_on, log_of};
ghost use Rattle.commit_log.specs.Recovered.{log_in, stands, state_in};
ghost use Rattle.commit_log.specs.declared.fault.FindFault.TheVariants.{Damaged, Failed, NoMemory as OutOfMemory};

use crate::fault::FindFault;
use crate::open_log::CommitLog;
use disk_trait::{Disk, Parts};
use log_frame::{Log, LogFault, Records};
use std::alloc::Global;
use thor_value::Text;

/// Of two logs the one with the greater sequence, the first where they are equal.
fn greater(
    first: Option<(Log, Text, Records)>,
    second: Option<(Log, Text, Records)>,
) -> Option<(Log, Text, Records)>
    ensures { result ≡ choice first second }
{
    match (first, second) {
        (Some(a), Some(b)) => {
            if a.0.sequence() < b.0.sequence() {
                Some(b)
            } else {
                Some(a)
            }
        }
        (Some(a), None) => Some(a),
        (None, second) => second,
    }
}

/// What of two log disks counts, as a log of entries.
fn choose(
    alloc: Global,
    first: Option<(Log, Text, Records)>,
    second: Option<(Log, Text, Records)>,
) -> Option<(CommitLog, Text, Records)>
    ensures { result ≡ choice first second }
{
    let (log, head, records) = greater(first, second)?;
    Some((CommitLog::new(alloc, log), head, records))
}

/// A fault of a log, with the disk on which the log stands.
fn fault_on(disk: Disk, fault: LogFault) -> FindFault
    ensures { result ≡ fault_on (number disk) fault }
{
    match fault {
        LogFault::Failed => FindFault::Failed {
            disk: disk.number(),
        },
        LogFault::Damaged { place } => FindFault::Damaged {
            disk: disk.number(),
            place,
        },
        LogFault::NoMemory => FindFault::NoMemory,
    }
}

/// What a log disk opens as. Its fault tells the disk.
fn open_on<P: Parts>(
    alloc: Global,
    parts: &mut P,
    disk: Disk,
) -> Result<Option<(Log, Text, Records)>, FindFault>
    requires { (number disk) < 2 }
    ensures alone { OnDisk (P.disks parts.old) (P.disks parts.new) (number disk) }
    ensures content { (P.disks parts.new).content (number disk) ≡ (P.disks parts.old).content (number disk) }
    ensures crash { NoNewImage (P.disks parts.old) (P.disks parts.new) (number disk) }
    ensures any_moment { Leaves (P.disks parts.old) (P.disks parts.new) (number disk) (MayLeave (P.disks parts.old) (number disk)) }
    ensures found { IfOk result (λ found. WhereTold (P.disks parts.old) (number disk) (λ bytes. IsFound (number disk) bytes found)) }
    ensures disk { IfOk result (λ found. IfSome found (λ f. f.0.disk ≡ (number disk))) }
    ensures damaged { (d place : ℕ) → IsErrOf result (Damaged d place) → (d ≡ (number disk)) × WhereTold (P.disks parts.old) (number disk) (λ bytes. read_log bytes ≡ Some (Err place)) }
    ensures failed { (d : ℕ) → IsErrOf result (Failed d) → (d ≡ (number disk)) × Rose ((P.disks parts.old).faults (number disk)) ((P.disks parts.new).faults (number disk)) }
    ensures steady { OnOk result ((P.disks parts.new).faults (number disk) ≡ (P.disks parts.old).faults (number disk)) }
    ensures wanting { IsErrOf result OutOfMemory → (P.disks parts.new).faults (number disk) ≡ (P.disks parts.old).faults (number disk) }
    ensures harmed { (d place : ℕ) → IsErrOf result (Damaged d place) → (P.disks parts.new).faults (number disk) ≡ (P.disks parts.old).faults (number disk) }
{
    match Log::open(alloc, parts, disk) {
        Ok(found) => Ok(found),
        Err(fault) => Err(fault_on(disk, fault)),
    }
}

/// Opens both logs, disk 0 first, and answers the one that counts, with its head and the bodies of its
/// records. `None` where neither log disk has an open header. The disks stay as they were. A fault tells its disk.
pub fn open_logs<P: Parts>(
    alloc: Global,
    parts: &mut P,
) -> Result<Option<(CommitLog, Text, Records)>, FindFault>
    requires { AllSettled (P.disks parts.old) }
    ensures any_moment { LeavesAll (P.disks parts.old) (P.disks parts.new) (MayLeaveAll (P.disks parts.old) (P.disks parts.old).time) }
    ensures settled { AllSettled (P.disks parts.new) }
    ensures content { SameContent (P.disks parts.old) (P.disks parts.new) }
    ensures holds { (s : AState) → IfOk result (λ found. IfSome found (λ f. state_in (log_of f) ≡ Some s → Holds (P.disks parts.new) f.0 s)) }
    ensures found { (images : ℕ → List ℕ) → ReadsAs (P.disks parts.old) images → IfOk result (λ found. stands images ≡ option_and_then (λ f. state_in (log_of f)) found) }
    ensures counts { (images : ℕ → List ℕ) → ReadsAs (P.disks parts.old) images → IfOk result (λ found. log_in images ≡ option_map log_of found) }
    ensures log { (images : ℕ → List ℕ) → ReadsAs (P.disks parts.old) images → IfOk result (λ found. IfSome found (λ f. Stands (images f.0.disk) (log_of f))) }
    ensures fresh { (images : ℕ → List ℕ) → ReadsAs (P.disks parts.old) images → result ≡ Ok None → IsFresh images }
    ensures damaged { (images : ℕ → List ℕ) (d place : ℕ) → ReadsAs (P.disks parts.old) images → IsErrOf result (Damaged d place) → IsTorn images d place }
    ensures failed { (d : ℕ) → IsErrOf result (Failed d) → Rose ((P.disks parts.old).faults d) ((P.disks parts.new).faults d) }
    ensures disk { (d : ℕ) → IsErrOf result (Failed d) → d < 2 }
    ensures steady { OnOk result (NoFault (P.disks parts.old) (P.disks parts.new)) }
    ensures wanting { IsErrOf result OutOfMemory → NoFault (P.disks parts.old) (P.disks parts.new) }
    ensures harmed { (d place : ℕ) → IsErrOf result (Damaged d place) → NoFault (P.disks parts.old) (P.disks parts.new) }
{
    let first = open_on(alloc, parts, Disk::Log0)?;
    let second = open_on(alloc, parts, Disk::Log1)?;
    Ok(choose(alloc, first, second))
}
