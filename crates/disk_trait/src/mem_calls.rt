// A call on one of several disks in memory.
ghost use Rattle.std.specs.Prelude.{true, ◌≡◌, ◌+◌, ◌^◌, ◌<◌, ◌≤◌, ◌||◌, ◌&&◌, ◌==◌, ◌↔◌, ℕ, List, length, take, drop, nat_lt, slice_get, Some, IfOk, OnOk, OnErr, IsErr, IsErrOf, IsTrue};
ghost use Rattle.disk_trait.specs.Kept.{Kept, noted, WroteTo, RestartedTo};
ghost use Rattle.disk_trait.specs.Mem.{MemCall, is_listed, is_refused, is_call, turn_of};
ghost use Rattle.disk_trait.specs.declared.record.Did.TheVariants.{Read, Length, Synced};

use crate::mem_disk::{MemDisk, Turn};
use crate::parts::{Outage, ends_too_far};

/// The moment at which the next call ends. No memory could hold the record of so many calls that there
/// is none.
pub(crate) fn next_moment(time: u64) -> Result<u64, Outage>
    ensures ok { IfOk result (λ next. next ≡ time + 1) }
    ensures err { OnErr result (IsErrOf result Outage.NoMemory) }
{
    time.checked_add(1).ok_or(Outage::NoMemory)
}

/// Whether a pair in the list of failing calls is the next call of a disk that had so many.
fn is_next(fail: (u8, u64), disk: u8, count: usize) -> bool
    ensures { result ≡ is_call fail disk count }
{
    fail.0 == disk && fail.1 > 0 && fail.1 - 1 == count as u64
}

fn is_due(fails: &[(u8, u64)], disk: u8, count: usize) -> bool
    ensures { result ≡ is_listed fails.now disk count }
{
    fails.iter().any(|fail| is_next(*fail, disk, count))
}

fn turn(fails: &[(u8, u64)], disk: u8, count: usize) -> Turn
    ensures { result ≡ turn_of (is_listed fails.now disk count) }
{
    if is_due(fails, disk, count) {
        Turn::Fails
    } else {
        Turn::Works
    }
}

pub(crate) fn read_at(
    disks: &mut [MemDisk],
    fails: &[(u8, u64)],
    time: u64,
    disk: u8,
    at: usize,
    into: &mut [u8],
) -> Result<(), Outage>
    requires there { disk < length disks.old }
    requires within { (old : Kept) → slice_get disks.old disk ≡ Some old → at + length into.old ≤ length old.bytes }
    ensures made { MemCall disks.old disks.new disk time (λ old. is_listed fails.now disk (length old.calls)) (λ old new. new ≡ noted old time (Read at (length into.old))) result }
    ensures bytes { OnOk result ((old : Kept) → slice_get disks.old disk ≡ Some old → into.new ≡ take (length into.old) (drop at old.bytes)) }
{
    let place = &mut disks[usize::from(disk)];
    let turn = turn(fails, disk, place.count());
    place.read_at(time, turn, at, into)
}

/// A write that ends above 2 ^ 40 fails.
pub(crate) fn write_at(
    disks: &mut [MemDisk],
    fails: &[(u8, u64)],
    time: u64,
    disk: u8,
    at: usize,
    put: &[u8],
) -> Result<(), Outage>
    requires { disk < length disks.old }
    ensures made { MemCall disks.old disks.new disk time (λ old. is_refused fails.now disk (length old.calls) (at + length put.now)) (λ old new. WroteTo old new time at put.now) result }
    ensures too_far { 2 ^ 40 < at + length put.now → IsErr result }
{
    let place = &mut disks[usize::from(disk)];
    if ends_too_far(at as u64, put.len()) {
        return place.fail(time);
    }
    let turn = turn(fails, disk, place.count());
    place.write_at(time, turn, at, put)
}

pub(crate) fn sync(
    disks: &mut [MemDisk],
    fails: &[(u8, u64)],
    time: u64,
    disk: u8,
) -> Result<(), Outage>
    requires { disk < length disks.old }
    ensures { MemCall disks.old disks.new disk time (λ old. is_listed fails.now disk (length old.calls)) (λ old new. new ≡ noted old time Synced) result }
{
    let place = &mut disks[usize::from(disk)];
    let turn = turn(fails, disk, place.count());
    place.sync(time, turn)
}

pub(crate) fn len(
    disks: &mut [MemDisk],
    fails: &[(u8, u64)],
    time: u64,
    disk: u8,
) -> Result<u64, Outage>
    requires { disk < length disks.old }
    ensures made { MemCall disks.old disks.new disk time (λ old. is_listed fails.now disk (length old.calls)) (λ old new. new ≡ noted old time Length) result }
    ensures bytes { IfOk result (λ n. (old : Kept) → slice_get disks.old disk ≡ Some old → n ≡ length old.bytes) }
{
    let place = &mut disks[usize::from(disk)];
    let turn = turn(fails, disk, place.count());
    place.len(time, turn)
}

pub(crate) fn restart(
    disks: &mut [MemDisk],
    fails: &[(u8, u64)],
    time: u64,
    disk: u8,
    pick: u64,
) -> Result<(), Outage>
    requires { disk < length disks.old }
    ensures { MemCall disks.old disks.new disk time (λ old. is_listed fails.now disk (length old.calls)) (λ old new. RestartedTo old new time pick) result }
{
    let place = &mut disks[usize::from(disk)];
    let turn = turn(fails, disk, place.count());
    place.restart(time, turn, pick)
}
