//! The whole system on one thread: a store that was found is opened, and played on by clients.
#![tactic(auto)]

mod apart;
mod calls;
mod cluster;
mod draining;
mod emptied;
mod events;
mod finishing;
mod history;
mod lines;
mod looks;
mod opening;
mod plan;
mod playing;
mod seat;
mod settling;
mod turning;

pub use cluster::Cluster;
pub use emptied::Emptied;
pub use finishing::{Finished, Ran};
pub use plan::{Plan, Start};
pub use playing::{play, without_run};
pub use seat::Seat;
