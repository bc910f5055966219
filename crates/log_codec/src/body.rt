//! The bodies of a log's records.

use log_entries::Entry;

/// What a record's body says.
#[derive(Debug, Drop)]
pub enum Body {
    /// An entry of the repository's history.
    Entry(Entry),
    /// A page was written on this side, which is in use from here on. It is no entry of the history.
    Installed {
        /// The page.
        page: u32,
        /// 0 or 1.
        side: u8,
    },
}
