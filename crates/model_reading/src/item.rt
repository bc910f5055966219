use log_entries::Entry as LogEntry;
use spec_trace::Mark as TraceMark;

/// One item of a repository's trace.
#[derive(Drop)]
pub enum Item {
    /// An entry of the history.
    Entry {
        /// The entry.
        entry: LogEntry,
    },
    /// The mark of something that no log keeps.
    Mark {
        /// The mark.
        mark: TraceMark,
    },
}
