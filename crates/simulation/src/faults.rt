//! What a script is judged to be.

use repo_opening::Unopened;
use simulation_setup::Unbegun;
use thor_value::NoMemory;

/// What is wrong behind a script.
#[derive(Clone, Copy)]
pub enum Wrong {
    /// What the run tells is no serial history of the script, or doesn't answer it: the program would end with
    /// status 9.
    History,
    /// A repository is down at the end, though nothing is wrong with its disks.
    Down { repo: u8 },
    /// A store can't be opened, though nothing is wrong with its disks.
    Opening,
    /// The disks hold another store than the history leaves.
    Store,
    /// A crash leaves another store than the one with which the repositories came back.
    Image,
    /// A transform hasn't read all owners of its object.
    Owners,
    /// A repository buffers more than it may.
    Buffer { repo: u8 },
    /// A repository keeps more sessions, transactions or messages than it may.
    Counts { repo: u8 },
}

/// What a script is judged to be.
#[derive(Clone, Copy)]
pub enum Verdict {
    /// All is right. With `is_finished` all of its items are done: the program would end with status 0, else with 1.
    Right { is_finished: bool },
    /// It isn't a script that is accepted.
    Refused,
    Wrong(Wrong),
}

/// Why a script isn't judged to its end.
#[derive(Clone, Copy)]
pub(crate) enum Fault {
    Refused,
    Wrong(Wrong),
    NoMemory,
}

impl From<NoMemory> for Fault {
    fn from(_missing: NoMemory) -> Fault {
        Fault::NoMemory
    }
}

impl From<Unbegun> for Fault {
    fn from(why: Unbegun) -> Fault {
        match why {
            Unbegun::Refused => Fault::Refused,
            Unbegun::NoMemory => Fault::NoMemory,
        }
    }
}

impl From<Unopened> for Fault {
    /// Why a store in memory wasn't opened: its disks don't fail.
    fn from(why: Unopened) -> Fault {
        match why {
            Unopened::Failed { .. } | Unopened::Damaged { .. } => Fault::Wrong(Wrong::Opening),
            Unopened::NoMemory => Fault::NoMemory,
        }
    }
}
