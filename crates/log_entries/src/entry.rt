//! The entries of a repository's history. Each is one record of its log.

use crate::request::Request;
use thor_value::{NoMemory, TryCopy, Ts};

/// One entry of the history of a repository.
#[derive(Debug)]
pub enum Entry {
    /// The repository was opened or restarted. Its transactions that were prepared and not decided
    /// are aborted by it.
    Life {
        /// How often it was opened or restarted, this time included.
        life: u32,
    },
    /// A transaction with this one participant, prepared and committed at once.
    One {
        /// What the client sent.
        request: Request,
    },
    /// A transaction with several participants, prepared here.
    Prepared {
        /// What the client sent here.
        request: Request,
    },
    /// The coordinator's decision.
    Decided {
        /// The transaction.
        tx: Ts,
        /// Whether it commits.
        commit: bool,
    },
    /// A participant learns the coordinator's decision.
    Finished {
        /// The transaction.
        tx: Ts,
        /// Whether it commits.
        commit: bool,
    },
    /// An upgrade of classes with this one participant, committed at once.
    Upgraded {
        /// What the client sent.
        request: Request,
    },
}

impl Drop for Entry {
    fn drop(self) {
        match self {
            Entry::One { request } | Entry::Prepared { request } | Entry::Upgraded { request } => {
                drop(request);
            }
            Entry::Life { life } => {
                let _ = life;
            }
            Entry::Decided { tx, commit } | Entry::Finished { tx, commit } => {
                let _ = (tx, commit);
            }
        }
    }
}

impl TryCopy for Entry {
    fn copy(&self) -> Result<Entry, NoMemory> {
        match self {
            Entry::Life { life } => Ok(Entry::Life { life: *life }),
            Entry::One { request } => Ok(Entry::One {
                request: request.copy()?,
            }),
            Entry::Prepared { request } => Ok(Entry::Prepared {
                request: request.copy()?,
            }),
            Entry::Decided { tx, commit } => Ok(Entry::Decided {
                tx: *tx,
                commit: *commit,
            }),
            Entry::Finished { tx, commit } => Ok(Entry::Finished {
                tx: *tx,
                commit: *commit,
            }),
            Entry::Upgraded { request } => Ok(Entry::Upgraded {
                request: request.copy()?,
            }),
        }
    }
}
