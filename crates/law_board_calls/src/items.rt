use log_entries::Entry;
use spec_trace::Mark;

/// One item of a repository's trace, as a type of the code. No value of it is ever made.
pub enum TraceItem {
    /// An entry of the history.
    Entry {
        /// The entry.
        entry: Entry,
    },
    /// The mark of something that no log keeps.
    Mark {
        /// The mark.
        mark: Mark,
    },
}
