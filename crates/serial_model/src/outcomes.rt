use base_reasons::Reason;
use thor_value::{Fault, Ints, NoMemory, Oref, Sequence, TryCopy, Ts, Who};

/// How an item ended.
#[derive(Debug, Drop)]
pub struct Ended {
    /// Which item, by client and index, both from 1.
    pub who: Who,
    /// How many times it was tried, the last one included.
    pub tries: u32,
    pub outcome: ItemOutcome,
}

/// The outcomes of all items, by client and then index.
pub type Ends = Sequence<Ended>;

/// What became of an item.
#[derive(Debug, Drop)]
pub enum ItemOutcome {
    /// It was committed, and printed these values.
    Done { ts: Ts, answer: Ints },
    /// The upgrade was committed, as the upgrade of this number.
    Upgraded { ts: Ts, number: u32 },
    /// It was committed with a fault as its answer.
    Faulted { ts: Ts, fault: Fault },
    /// It was not committed: its last try ended by this cause.
    Refused { cause: Cause },
    /// Whether it was committed could not be learnt.
    Unknown { tx: Ts },
}

/// Why a try ended without a commit.
#[derive(Clone, Copy, Debug, PartialEq, Eq)]
pub enum Cause {
    /// A repository refused it for this, or the client learnt of it before it asked.
    Reason(Reason),
    /// The page had no such object.
    Missing { oref: Oref },
    /// The repository was down.
    Down { repo: u8 },
    /// The calls of the try were used up.
    Calls,
}

impl TryCopy for ItemOutcome {
    fn copy(&self) -> Result<ItemOutcome, NoMemory> {
        match self {
            ItemOutcome::Done { ts, answer } => Ok(ItemOutcome::Done {
                ts: *ts,
                answer: answer.copy()?,
            }),
            ItemOutcome::Upgraded { ts, number } => Ok(ItemOutcome::Upgraded {
                ts: *ts,
                number: *number,
            }),
            ItemOutcome::Faulted { ts, fault } => Ok(ItemOutcome::Faulted {
                ts: *ts,
                fault: *fault,
            }),
            ItemOutcome::Refused { cause } => Ok(ItemOutcome::Refused { cause: *cause }),
            ItemOutcome::Unknown { tx } => Ok(ItemOutcome::Unknown { tx: *tx }),
        }
    }
}

impl TryCopy for Ended {
    fn copy(&self) -> Result<Ended, NoMemory> {
        Ok(Ended {
            who: self.who,
            tries: self.tries,
            outcome: self.outcome.copy()?,
        })
    }
}
