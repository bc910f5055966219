//! The calls by which a client sees repositories.
#![tactic(auto)]

mod port;

pub use port::Port;
