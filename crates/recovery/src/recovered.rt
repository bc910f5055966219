use commit_log::CommitLog;
use page_format::StoreFormat;
use repo_state::HeldState;

/// A repository as its logs tell it.
#[derive(Drop)]
pub struct Recovered {
    /// The state behind all records.
    pub state: HeldState,
    /// The log that counts.
    pub log: CommitLog,
    /// The format of its checkpoint, and of the pages that are installed. In an older one pages are read by `migrate` and by
    /// the checks of an opening alone.
    pub format: StoreFormat,
    /// The count of entries of its checkpoint.
    pub count: u64,
    /// Whether a record of the log prepares a transaction on which a decision was kept, which then went. No repository
    /// writes such a log.
    pub reopens: bool,
}
