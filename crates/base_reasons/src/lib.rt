//! Why a repository that is in order refuses a call: plain data, for those who refuse and those who tell of it.
#![tactic(auto)]

mod reason;

pub use reason::Reason;
