use thor_value::{Oref, Ts};

/// Why a repository that is in order refuses a call, and why a try ends behind it. A call that is refused
/// so has changed nothing but the trace, which gets a mark where the call says so.
#[derive(Clone, Copy, Debug, PartialEq, Eq)]
pub enum Reason {
    /// The repository has no session of that number: it was restarted, or the client has connected
    /// anew.
    Gone {
        /// The session that the call named.
        session: u32,
    },
    /// The request's epoch isn't the repository's.
    Epoch {
        /// How many upgrades the repository has installed.
        n: u32,
    },
    /// An upgrade is prepared and undecided here; for an upgrade's request, any transaction.
    Blocked {
        /// The least such transaction.
        tx: Ts,
    },
    /// The transaction isn't above the threshold of the repository; an upgrade isn't above it and every
    /// transaction in the queue.
    TooOld {
        /// The timestamp that it would have to be above.
        threshold: Ts,
    },
    /// A copy that the transaction read was written since by another session.
    Stale {
        /// The least such object.
        oref: Oref,
        /// The place of its last such write.
        place: u64,
    },
    /// An undecided transaction with a lesser timestamp wrote what this one read.
    Earlier {
        /// The least such transaction.
        tx: Ts,
        /// The least such object.
        oref: Oref,
    },
    /// A transaction with a greater timestamp wrote what this one read, or read what this one wrote.
    Later {
        /// The least such transaction.
        tx: Ts,
        /// The least such object.
        oref: Oref,
    },
    /// A quantity stands at its limit.
    Full {
        /// The limit.
        limit: u32,
    },
    /// The time to draw reaches 2^62.
    ClockEnd,
}
