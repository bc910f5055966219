/// How a transaction stands at the repository that was asked.
#[derive(Clone, Copy, Debug, PartialEq, Eq)]
pub enum Standing {
    /// It is prepared and undecided here.
    Open,
    /// It committed: the decision is kept, or it is its client's last one that committed here alone.
    Committed,
    /// It is neither: it was aborted, or never came here, or was forgotten.
    Aborted,
}
