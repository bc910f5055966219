//! What the trace of a repository has between the entries of its history.

use log_entries::Request;
use repo_refusals::Refusal;
use thor_value::{Boxed, Ts};

/// The mark of something that happened at a repository and that no log keeps.
#[derive(Debug, Drop)]
pub enum Mark {
    /// A client connected.
    Connected {
        /// The session that begins.
        session: u32,
        /// The client.
        client: u8,
    },
    /// A page was asked for, and put into the session's outbox.
    Fetched {
        /// The session.
        session: u32,
        /// The page.
        page: u32,
        /// The messages that the client had taken: those of the places below.
        upto: u64,
    },
    /// A new page was granted, and put into the session's outbox.
    Granted {
        /// The session.
        session: u32,
        /// The page.
        page: u32,
    },
    /// The client took a message.
    Took {
        /// The session.
        session: u32,
        /// The message's place.
        place: u64,
    },
    /// The client drew a timestamp.
    Drew {
        /// The session.
        session: u32,
        /// The timestamp.
        ts: Ts,
    },
    /// A decision to commit was forgotten.
    Forgot {
        /// The transaction.
        tx: Ts,
    },
    /// A draw, a grant or a request was refused.
    Refused {
        /// The session that was named.
        session: u32,
        /// The request, where it was one. It has memory of its own, so that all marks are small.
        request: Option<Boxed<Request>>,
        /// Why.
        refusal: Boxed<Refusal>,
    },
}
