//! The top call: what the program does with its words, a script, and the parts of a store.
#![tactic(auto)]

mod answering;
mod beginning;
mod expected;
mod opening;
mod performing;
mod running;
mod telling;
mod top;

pub use performing::perform;
pub use top::thor;
pub use top_judging::SCRIPT_LIMIT;
pub use top_reply::{Reply, Status};
pub use top_statement::{Outcome, StoreParts};
