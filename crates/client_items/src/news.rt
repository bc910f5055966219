//! What a step has come to for the present item, or for one that was held as Unknown.

ghost use Rattle.client_items.specs.Courses.{IsLateOutcome};

use class_defs::{Block, Upgrade};
use serial_model::{Cause, ItemOutcome};
use thor_value::{Ts, Who};

/// An item that was held as Unknown has ended.
#[derive(Drop)]
pub struct Settled {
    /// Its index, from 1.
    pub index: u32,
    /// Its transaction.
    pub ts: Ts,
    pub outcome: ItemOutcome,
    ghost late: { IsLateOutcome ts outcome },
}

/// A verdict was learnt late.
#[derive(Drop)]
pub struct Learnt {
    pub settled: Settled,
    /// Whether an own upgrade was learnt, so that the client's epoch has risen.
    pub rises: bool,
}

/// What a step has come to.
#[derive(Drop)]
pub enum News {
    /// No try and no item has ended.
    Nothing,
    /// The try that ran, or that would have begun, has ended without a commit.
    TryEnded { cause: Cause },
    /// The present item has ended.
    Ended { outcome: ItemOutcome },
    /// An item that was held as Unknown has ended.
    Settled { settled: Settled },
}

/// What an item asks for.
#[derive(Clone, Copy)]
pub enum Asked<'a> {
    /// A transaction, by its text.
    Tx(&'a Block),
    /// An upgrade of classes.
    Upgrade(&'a Upgrade),
}

/// What a client is to do.
#[derive(Clone, Copy)]
pub struct Task<'a> {
    /// The present item.
    pub who: Who,
    /// What it asks for; nothing where no item is left.
    pub what: Option<Asked<'a>>,
    /// The number that it gets where it is an upgrade.
    pub number: u32,
    /// How many tries an item has.
    pub tries: u32,
}
