ghost use Rattle.disk_trait.specs.Numbers.{number};
ghost use Rattle.std.specs.Prelude.{◌≡◌, ◌<◌, ◌∷◌, [], is_err};
ghost use Rattle.disk_trait.specs.Counts.{counted, answer_of};

use crate::disk::Disk;
use crate::parts::Outage;

/// What is known of disks that tell nothing of their content.
#[derive(Debug, Drop)]
pub(crate) struct Counts {
    /// How many calls were made.
    time: u64,
    /// How often each disk failed.
    faults: [u64; 3],
}

impl Counts {
    pub(crate) fn new() -> Counts
        ensures { result ≡ record { time = 0; faults = 0 ∷ 0 ∷ 0 ∷ [] } }
    {
        Counts {
            time: 0,
            faults: [0; 3],
        }
    }

    /// Counts a call on a disk, which failed where there is no answer.
    pub(crate) fn after<T>(&mut self, disk: Disk, answer: Option<T>) -> Result<T, Outage>
        ensures counts { self.new ≡ counted self.old (number disk) (is_err result) }
        ensures answer { result ≡ answer_of answer }
    {
        self.time = self.time.saturating_add(1);
        match answer {
            Some(answer) => Ok(answer),
            None => {
                let faults = &mut self.faults[usize::from(disk.number())];
                *faults = faults.saturating_add(1);
                Err(Outage::Failed)
            }
        }
    }
}
