ghost use Rattle.disk_trait.specs.Numbers.{number};
ghost use Rattle.std.specs.Prelude.{◌≡◌, ◌+◌, ◌<◌, ◌≤◌, ℕ, List, length, max};
ghost use Rattle.disk_trait.specs.Disks.{WhereTold, SameDisks};
ghost use Rattle.disk_trait.specs.Calls.{Reads, Writes, Syncs, TellsLength, Restarts};
ghost use Rattle.disk_trait.specs.Fuse.{burnt, stopped};
ghost use Rattle.disk_trait.specs.Fused.{fused_disks, parts_of, fuse_of, new_fuse, armed, fell_of};

use crate::disk::Disk;
use crate::fuse::Fuse;
use crate::parts::{Outage, Parts};

/// Parts that carry the schedule's stop: the last of an armed number of disk calls is made and then
/// answers `Failed`.
///
/// A disk's count of faults is that of the parts inside plus the number of times that the stop fell in
/// a call on that disk.
#[derive(Drop)]
pub struct Fused<P> {
    parts: P,
    fuse: Fuse,
}

impl<P> Fused<P> {
    /// Parts whose stop isn't armed.
    pub fn new(parts: P) -> Fused<P>
        ensures parts { parts_of result ≡ parts }
        ensures fuse { fuse_of result ≡ new_fuse }
    {
        Fused {
            parts,
            fuse: Fuse::new(),
        }
    }

    /// Lets the stop fall in the last of this many disk calls from now. It takes the place of what was
    /// armed before.
    pub fn arm(&mut self, calls: u32)
        requires { 0 < calls }
        ensures { self.new ≡ armed self.old calls }
    {
        self.fuse.arm(calls);
    }

    /// Takes back a stop that hasn't fallen.
    pub fn disarm(&mut self)
        ensures { self.new ≡ armed self.old 0 }
    {
        self.fuse.arm(0);
    }

    /// How often the stop fell. A count that has reached the greatest `u64` stays there.
    pub fn fell(&self) -> u64
        ensures { result ≡ fell_of self.now }
    {
        self.fuse.fell()
    }

    /// The parts inside.
    pub fn inner(self) -> P
        ensures { result ≡ parts_of self }
    {
        let Fused { parts, fuse: _ } = self;
        parts
    }
}

impl<P: Parts> Parts for Fused<P> {
    ghost disks = { fused_disks P.disks };

    ghost asked = { λ fused now then. P.asked fused.parts now then.parts };

    #[tactic(auto, using(crate::proofs::FusedCalls::fused_read_at))]
    fn read_at(&mut self, disk: Disk, at: u64, into: &mut [u8]) -> Result<(), Outage>
        requires within { WhereTold (fused_disks P.disks self.old) (number disk) (λ bytes. at + length into.old ≤ length bytes) }
        ensures call { Reads (fused_disks P.disks self.old) (fused_disks P.disks self.new) (number disk) at into.old into.new result }
        ensures made { (answer : _) × Reads (P.disks (parts_of self.old)) (P.disks (parts_of self.new)) (number disk) at into.old into.new answer × (result ≡ stopped (fuse_of self.old) answer) }
        ensures fuse { fuse_of self.new ≡ burnt (fuse_of self.old) (number disk) }
    {
        let answer = self.parts.read_at(disk, at, into);
        self.fuse.after(disk, answer)
    }

    #[tactic(auto, using(crate::proofs::FusedCalls::fused_write_at))]
    fn write_at(&mut self, disk: Disk, at: u64, bytes: &[u8]) -> Result<(), Outage>
        ensures call { Writes (fused_disks P.disks self.old) (fused_disks P.disks self.new) (number disk) at bytes.now result }
        ensures made { (answer : _) × Writes (P.disks (parts_of self.old)) (P.disks (parts_of self.new)) (number disk) at bytes.now answer × (result ≡ stopped (fuse_of self.old) answer) }
        ensures fuse { fuse_of self.new ≡ burnt (fuse_of self.old) (number disk) }
    {
        let answer = self.parts.write_at(disk, at, bytes);
        self.fuse.after(disk, answer)
    }

    #[tactic(auto, using(crate::proofs::FusedCalls::fused_sync))]
    fn sync(&mut self, disk: Disk) -> Result<(), Outage>
        ensures call { Syncs (fused_disks P.disks self.old) (fused_disks P.disks self.new) (number disk) result }
        ensures made { (answer : _) × Syncs (P.disks (parts_of self.old)) (P.disks (parts_of self.new)) (number disk) answer × (result ≡ stopped (fuse_of self.old) answer) }
        ensures fuse { fuse_of self.new ≡ burnt (fuse_of self.old) (number disk) }
    {
        let answer = self.parts.sync(disk);
        self.fuse.after(disk, answer)
    }

    #[tactic(auto, using(crate::proofs::FusedCalls::fused_len))]
    fn len(&mut self, disk: Disk) -> Result<u64, Outage>
        ensures call { TellsLength (fused_disks P.disks self.old) (fused_disks P.disks self.new) (number disk) result }
        ensures made { (answer : _) × TellsLength (P.disks (parts_of self.old)) (P.disks (parts_of self.new)) (number disk) answer × (result ≡ stopped (fuse_of self.old) answer) }
        ensures fuse { fuse_of self.new ≡ burnt (fuse_of self.old) (number disk) }
    {
        let answer = self.parts.len(disk);
        self.fuse.after(disk, answer)
    }

    #[tactic(auto, using(crate::proofs::FusedCalls::fused_restart))]
    fn restart(&mut self, disk: Disk, pick: u64) -> Result<(), Outage>
        ensures call { Restarts (fused_disks P.disks self.old) (fused_disks P.disks self.new) (number disk) result }
        ensures made { (answer : _) × Restarts (P.disks (parts_of self.old)) (P.disks (parts_of self.new)) (number disk) answer × (result ≡ stopped (fuse_of self.old) answer) }
        ensures fuse { fuse_of self.new ≡ burnt (fuse_of self.old) (number disk) }
    {
        let answer = self.parts.restart(disk, pick);
        self.fuse.after(disk, answer)
    }

    fn now(&mut self) -> u64
        ensures disks { SameDisks (fused_disks P.disks self.old) (fused_disks P.disks self.new) }
        ensures clock { (fused_disks P.disks self.new).clock ≡ max (fused_disks P.disks self.old).clock result }
        ensures inside { SameDisks (P.disks (parts_of self.old)) (P.disks (parts_of self.new)) }
        ensures fuse { fuse_of self.new ≡ fuse_of self.old }
        ensures asked { P.asked (parts_of self.old) result (parts_of self.new) }
    {
        self.parts.now()
    }

    ghost reads = { λ fused d bytes told. P.reads fused.parts d bytes told };
}
