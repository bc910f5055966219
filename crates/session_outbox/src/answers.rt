//! What the calls of a repository answer and are given, beside its refusals.

ghost use Rattle.std.specs.Prelude.{◌≡◌};

use thor_value::{Texts, Ts};

/// A session at a repository.
#[derive(Clone, Copy, Debug, PartialEq, Eq)]
pub struct At {
    /// The repository, from 0.
    pub repo: u8,
    /// The session's number there.
    pub session: u32,
}

/// What a client learns where it connects.
#[derive(Debug, Drop)]
pub struct Welcome {
    /// The number of its session.
    pub session: u32,
    /// How many upgrades the repository has installed.
    pub epoch: u32,
    /// The timestamp that its transactions have to be above.
    pub threshold: Ts,
    /// How many entries the history has: what is below is known to the client from the start.
    pub place: u64,
    /// The printed texts of all installed upgrades, in order.
    pub upgrades: Texts,
}

/// Whether a transaction commits.
#[derive(Clone, Copy, Debug, PartialEq, Eq)]
pub struct Verdict {
    tx: Ts,
    commit: bool,
}

impl Verdict {
    /// A verdict on a transaction. It is the caller's to have it from the coordinator.
    pub fn new(tx: Ts, commit: bool) -> Verdict
        ensures tx { result.tx ≡ tx }
        ensures commit { result.commit ≡ commit }
    {
        Verdict { tx, commit }
    }

    /// The transaction.
    pub fn tx(&self) -> Ts
        ensures { result ≡ self.now.tx }
    {
        self.tx
    }

    /// Whether it commits.
    pub fn commit(&self) -> bool
        ensures { result ≡ self.now.commit }
    {
        self.commit
    }
}

/// What a coordinator answers about a transaction.
#[derive(Clone, Copy, Debug, PartialEq, Eq)]
pub enum Asked {
    /// It is prepared there, and not decided.
    Undecided,
    /// It is decided. An abort of a transaction that was forgotten says only that no participant has
    /// it prepared any more.
    Settled(Verdict),
}
