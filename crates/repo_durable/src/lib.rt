//! What of a repository outlives a crash: its disks with its log, and what is held in memory of the state for
//! which the log stands.
#![tactic(auto)]

mod agreement;
mod fault;
mod reach;
mod recovering;
mod stable;

pub use fault::{OpenCause, OpenFault};
pub use recovering::Taken;
pub use stable::Stable;
