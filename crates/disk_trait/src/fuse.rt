ghost use Rattle.disk_trait.specs.Numbers.{number};
ghost use Rattle.std.specs.Prelude.{◌≡◌, ◌+◌, ◌-◌, ◌^◌, ◌<◌, ◌≤◌, ◌∷◌, [], ℕ, min, max, sum, length};
ghost use Rattle.disk_trait.specs.Fuse.{burnt, stopped};

use crate::disk::Disk;
use crate::parts::Outage;

/// A stop that falls in the last of a number of calls.
#[derive(Debug, Drop)]
pub(crate) struct Fuse {
    /// How many calls are left, that in which it falls included; 0 where it isn't armed.
    left: u32,
    /// How often it fell in a call on each disk.
    falls: [u64; 3],
}

impl Fuse {
    pub(crate) fn new() -> Fuse
        ensures { result ≡ record { left = 0; falls = 0 ∷ 0 ∷ 0 ∷ [] } }
    {
        Fuse {
            left: 0,
            falls: [0; 3],
        }
    }

    pub(crate) fn arm(&mut self, calls: u32)
        ensures { self.new ≡ record self.old { left = calls } }
    {
        self.left = calls;
    }

    pub(crate) fn fell(&self) -> u64
        ensures { result ≡ min (sum self.now.falls) (2 ^ 64 - 1) }
    {
        self.falls[0]
            .saturating_add(self.falls[1])
            .saturating_add(self.falls[2])
    }

    /// Counts a call on a disk that was made, and answers what the call does.
    pub(crate) fn after<T: Drop>(
        &mut self,
        disk: Disk,
        answer: Result<T, Outage>,
    ) -> Result<T, Outage>
        ensures fuse { self.new ≡ burnt self.old (number disk) }
        ensures answer { result ≡ stopped self.old answer }
    {
        if self.left == 1 {
            let falls = &mut self.falls[usize::from(disk.number())];
            *falls = falls.saturating_add(1);
            self.left = 0;
            return Err(Outage::Failed);
        }
        self.left = self.left.saturating_sub(1);
        answer
    }
}
