//! What is kept of one item of the trace of a repository.

use crate::mark::Mark;

/// One item of a trace as it is kept beside a history: an entry of that history, by its place, or a mark.
#[derive(Debug, Drop)]
pub enum KeptItem {
    /// The next entry of the history.
    Entry {
        /// Its place, from 0.
        place: u64,
    },
    /// A mark.
    Mark {
        /// The mark.
        mark: Mark,
    },
}
