/// How a run is performed.
#[derive(Clone, Copy, Debug, PartialEq, Eq)]
pub enum Running {
    /// On one thread, one event after the other.
    InTurn,
    /// By a thread for each client.
    OnThreads,
}
