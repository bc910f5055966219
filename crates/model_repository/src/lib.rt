//! Plain, slow repositories over lists, as a port that shows what its calls do: each is its trace, and what it answers
//! is read off that. They may be stopped in a call, and restarted with the entry that was being written or without it.
#![tactic(auto)]

mod answers;
mod calls;
mod plain_port;
mod reader;
mod reading;
mod restarting;
mod site;

pub use plain_port::PlainPort;
pub use reader::Reader;
pub use reading::{Reads, Step};
pub use site::{Left, Site};
