/// How a run is told.
#[derive(Clone, Copy, Debug, PartialEq, Eq)]
pub enum Form {
    /// By a line for each item, and the history.
    Report,
    /// By how many items ended how, and the sum of the accounts.
    Summary,
}
