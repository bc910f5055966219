ghost use Rattle.disk_trait.specs.Numbers.{number};
ghost use Rattle.std.specs.Prelude.{◌≡◌, ◌+◌, ◌^◌, ◌<◌, ◌≤◌, ◌||◌, ◌∷◌, [], ℕ, List, length, max, nat_lt, IfOk, OnErr, IsErrOf, Some, slice_get, reverse};
ghost use Rattle.std.specs.List.{All};
ghost use Rattle.disk_trait.specs.Disks.{WhereTold, SameDisks, IsSettled};
ghost use Rattle.disk_trait.specs.Calls.{Reads, Writes, Syncs, TellsLength, Restarts};
ghost use Rattle.disk_trait.specs.Kept.{Kept, IsSound, noted, WroteTo, RestartedTo};
ghost use Rattle.disk_trait.specs.Mem.{told, MemCall, is_listed, is_refused, fresh, bytes_of, calls_of};
ghost use Rattle.disk_trait.specs.MemLaws.{mem_reads};
ghost use Rattle.disk_trait.specs.declared.record.Did.TheVariants.{Read, Length, Synced};

use crate::clock::Clock;
use crate::disk::Disk;
use crate::mem_calls;
use crate::mem_calls::next_moment;
use crate::mem_disk::MemDisk;
use crate::parts::{Outage, Parts};
use crate::record::Call;

/// Parts in memory, which tell contracts all that they hold.
///
/// They keep a record of all calls on their disks, and fail those that they are told to.
#[derive(Drop)]
pub struct MemParts<C> {
    disks: [MemDisk; 3],
    /// How many calls on the disks were made.
    time: u64,
    fails: Vec<(u8, u64)>,
    clock: C,
    ghost sound: { All (IsSound time) disks },
}

impl<C> MemParts<C> {
    ghost use Rattle.disk_trait.specs.MemParts.{disks_of, time_of, fails_of, clock_in};

    /// Disks with these bytes, all of them synced. A pair (d, n) in `fails` makes the n-th call on disk d
    /// fail, counted from 1.
    pub fn new(
        log0: Vec<u8>,
        log1: Vec<u8>,
        pages: Vec<u8>,
        fails: Vec<(u8, u64)>,
        clock: C,
    ) -> MemParts<C>
        ensures disks { disks_of result ≡ fresh log0.items ∷ fresh log1.items ∷ fresh pages.items ∷ [] }
        ensures time { time_of result ≡ 0 }
        ensures fails { fails_of result ≡ fails.items }
        ensures clock { clock_in result ≡ clock }
        ensures settled { (asked d : ℕ) → IsSettled (told (disks_of result) (time_of result) asked) d }
    {
        MemParts {
            disks: [MemDisk::new(log0), MemDisk::new(log1), MemDisk::new(pages)],
            time: 0,
            fails,
            clock,
        }
    }

    /// The bytes that a read of the disk gives.
    pub fn bytes(&self, disk: Disk) -> &[u8]
        ensures { bytes_of (slice_get (disks_of self.now) (number disk)) ≡ Some result.now }
    {
        let place = &self.disks[usize::from(disk.number())];
        place.bytes()
    }

    /// The record of the calls on a disk, the oldest first.
    pub fn calls(&self, disk: Disk) -> &[Call]
        ensures { calls_of (slice_get (disks_of self.now) (number disk)) ≡ reverse result.now }
    {
        let place = &self.disks[usize::from(disk.number())];
        place.calls()
    }
}

impl<C: Clock> Parts for MemParts<C> {
    ghost use Rattle.disk_trait.specs.MemParts.{disks_of, time_of, fails_of, clock_in, mem_disks};

    ghost disks = { mem_disks C.greatest };

    ghost asked = { λ parts now then. C.gives parts.clock now then.clock };

    fn read_at(&mut self, disk: Disk, at: u64, into: &mut [u8]) -> Result<(), Outage>
        requires within { WhereTold (mem_disks C.greatest self.old) (number disk) (λ bytes. at + length into.old ≤ length bytes) }
        ensures call { Reads (mem_disks C.greatest self.old) (mem_disks C.greatest self.new) (number disk) at into.old into.new result }
        ensures made { MemCall (disks_of self.old) (disks_of self.new) (number disk) (time_of self.old + 1) (λ old. is_listed (fails_of self.old) (number disk) (length old.calls)) (λ old new. new ≡ noted old (time_of self.old + 1) (Read at (length into.old))) result }
        ensures fails { fails_of self.new ≡ fails_of self.old }
    {
        let time = next_moment(self.time)?;
        let answer = mem_calls::read_at(
            &mut self.disks,
            &self.fails,
            time,
            disk.number(),
            at as usize,
            into,
        );
        self.time = time;
        answer
    }

    fn write_at(&mut self, disk: Disk, at: u64, bytes: &[u8]) -> Result<(), Outage>
        ensures call { Writes (mem_disks C.greatest self.old) (mem_disks C.greatest self.new) (number disk) at bytes.now result }
        ensures made { MemCall (disks_of self.old) (disks_of self.new) (number disk) (time_of self.old + 1) (λ old. is_refused (fails_of self.old) (number disk) (length old.calls) (at + length bytes.now)) (λ old new. WroteTo old new (time_of self.old + 1) at bytes.now) result }
        ensures fails { fails_of self.new ≡ fails_of self.old }
    {
        let time = next_moment(self.time)?;
        let answer = mem_calls::write_at(
            &mut self.disks,
            &self.fails,
            time,
            disk.number(),
            at as usize,
            bytes,
        );
        self.time = time;
        answer
    }

    fn sync(&mut self, disk: Disk) -> Result<(), Outage>
        ensures call { Syncs (mem_disks C.greatest self.old) (mem_disks C.greatest self.new) (number disk) result }
        ensures made { MemCall (disks_of self.old) (disks_of self.new) (number disk) (time_of self.old + 1) (λ old. is_listed (fails_of self.old) (number disk) (length old.calls)) (λ old new. new ≡ noted old (time_of self.old + 1) Synced) result }
        ensures fails { fails_of self.new ≡ fails_of self.old }
    {
        let time = next_moment(self.time)?;
        let answer = mem_calls::sync(&mut self.disks, &self.fails, time, disk.number());
        self.time = time;
        answer
    }

    fn len(&mut self, disk: Disk) -> Result<u64, Outage>
        ensures call { TellsLength (mem_disks C.greatest self.old) (mem_disks C.greatest self.new) (number disk) result }
        ensures made { MemCall (disks_of self.old) (disks_of self.new) (number disk) (time_of self.old + 1) (λ old. is_listed (fails_of self.old) (number disk) (length old.calls)) (λ old new. new ≡ noted old (time_of self.old + 1) Length) result }
        ensures fails { fails_of self.new ≡ fails_of self.old }
    {
        let time = next_moment(self.time)?;
        let answer = mem_calls::len(&mut self.disks, &self.fails, time, disk.number());
        self.time = time;
        answer
    }

    fn restart(&mut self, disk: Disk, pick: u64) -> Result<(), Outage>
        ensures call { Restarts (mem_disks C.greatest self.old) (mem_disks C.greatest self.new) (number disk) result }
        ensures made { MemCall (disks_of self.old) (disks_of self.new) (number disk) (time_of self.old + 1) (λ old. is_listed (fails_of self.old) (number disk) (length old.calls)) (λ old new. RestartedTo old new (time_of self.old + 1) pick) result }
        ensures fails { fails_of self.new ≡ fails_of self.old }
    {
        let time = next_moment(self.time)?;
        let answer = mem_calls::restart(&mut self.disks, &self.fails, time, disk.number(), pick);
        self.time = time;
        answer
    }

    fn now(&mut self) -> u64
        ensures disks { SameDisks (mem_disks C.greatest self.old) (mem_disks C.greatest self.new) }
        ensures clock { (mem_disks C.greatest self.new).clock ≡ max (mem_disks C.greatest self.old).clock result }
        ensures made { disks_of self.new ≡ disks_of self.old }
        ensures asked { C.gives (clock_in self.old) result (clock_in self.new) }
    {
        self.clock.now()
    }

    ghost reads = { λ parts d bytes told. mem_reads parts.disks parts.time d bytes parts.sound told };
}
