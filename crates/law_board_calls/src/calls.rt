use log_entries::Request;
use std::snapshot::Snapshot;
use thor_value::Ts;

/// A call that a client made under the lock of a repository.
pub struct Call {
    /// The client.
    pub client: u8,
    /// The repository.
    pub repo: u8,
    /// How long the repository's trace was then. An item of the call stands at this place.
    pub place: u64,
    /// Which call it was.
    pub kind: CallKind,
}

/// The calls that put an item into a trace. Requests are kept as proofs see them, which takes no
/// memory.
pub enum CallKind {
    /// The client connects.
    Connect,
    /// It asks for a page.
    Fetch {
        /// The client's session.
        session: u32,
        /// The page.
        page: u32,
        /// The messages that the client has taken: those of the places below.
        upto: u64,
    },
    /// It asks for a new page.
    Grant {
        /// The client's session.
        session: u32,
    },
    /// It takes a message.
    Receive {
        /// The client's session.
        session: u32,
    },
    /// It draws a timestamp.
    Draw {
        /// The client's session.
        session: u32,
    },
    /// It has a transaction prepared.
    Prepare {
        /// The client's session.
        session: u32,
        /// The part of the transaction that lies there.
        request: Snapshot<Request>,
    },
    /// It has a transaction of one participant committed.
    CommitOne {
        /// The client's session.
        session: u32,
        /// The transaction.
        request: Snapshot<Request>,
    },
    /// It decides about a transaction, at its coordinator.
    Decide {
        /// The client's session.
        session: u32,
        /// The transaction.
        tx: Ts,
        /// Whether it commits.
        commit: bool,
    },
    /// It tells a participant what was decided.
    Finish {
        /// The transaction.
        tx: Ts,
        /// Whether it commits.
        commit: bool,
    },
    /// It tells the coordinator that all other participants know.
    Forget {
        /// The transaction.
        tx: Ts,
    },
}
