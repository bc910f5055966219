/// Why a text wasn't written.
#[derive(Clone, Copy, Debug, PartialEq, Eq)]
pub enum Unwritten {
    /// The sink failed behind a front of it.
    Failed,
    /// Memory was not there, and the sink took nothing.
    NoMemory,
}
