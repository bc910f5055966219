use thor_value::{NoMemory, Sequence, TryCopy};

/// What an event does. Clients count from 1 and repositories from 0; an event may name ones that are not there.
#[derive(Clone, Copy, Debug, PartialEq, Eq)]
pub enum EventKind {
    /// `sC`: the client takes one step.
    Step { client: u32 },
    /// `dC.R`: the client receives one message of the repository.
    Deliver { client: u32, repo: u32 },
    /// `fR`: the repository flushes one page.
    Flush { repo: u32 },
    /// `kR`: the repository makes a checkpoint.
    Checkpoint { repo: u32 },
    /// `xR.K`: the repository goes down, at once or in its K-th disk call from now.
    Stop { repo: u32, calls: u32 },
    /// `cR.P`: the repository restarts, and its disks with the pick P.
    Restart { repo: u32, pick: u32 },
    /// `qR`: the repository asks about its least prepared transaction.
    Settle { repo: u32 },
    /// Any other event.
    Unknown,
}

/// An event of a schedule.
#[derive(Clone, Copy, Debug, PartialEq, Eq)]
pub struct Event {
    /// The line of its name, from 1.
    pub line: u32,
    pub kind: EventKind,
}

/// The events of a schedule, in order.
pub type Events = Sequence<Event>;

impl TryCopy for Event {
    fn copy(&self) -> Result<Event, NoMemory> {
        Ok(*self)
    }
}
