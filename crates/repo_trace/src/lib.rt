//! What is recorded of a repository: its trace since it was opened.
#![tactic(auto)]

mod recorder;
mod trace;

pub use recorder::Recorder;
pub use trace::{Entries, Marks, Trace, Traces};
