//! The system on threads: a thread for each client, one that flushes for each repository, and one lock for each
//! repository.
#![tactic(auto)]

mod beside;
mod client;
mod flushing;
mod locked_port;
mod locks;
mod prompts;
mod restarts;
mod running;

pub use cluster_core::{Cluster, Finished, Plan, Ran, Start, play};
pub use running::run_clients;
