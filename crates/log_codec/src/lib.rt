//! The bytes of a log: one spelling for each record's body and for each checkpoint, read and written
//! exactly.
#![tactic(auto)]

mod bodies;
mod body;
mod checkpoints;
mod fault;
mod lists;
mod parts;
mod requests;
mod rising;
mod spelled;
mod state;
mod wholes;

pub use bodies::{read_body, spell_entry, spell_installed};
pub use body::Body;
pub use checkpoints::{put_state, read_state, spell_state};
pub use fault::BodyFault;
pub use state::{Alones, Requests, State};
