//! What a repository writes into its log: the requests of transactions, and the entries of its
//! history.
#![tactic(auto)]

mod entry;
mod request;

pub use entry::Entry;
pub use request::{Kind, Request};
