//! What of a repository a restart begins anew: the transactions against which it validates requests, and its
//! sessions; with the transactions that came since its opening.
#![tactic(auto)]

mod judging;
mod memory;
mod telling;

pub use memory::Memory;
