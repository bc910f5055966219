//! What checked code does with parts.
#![tactic(auto)]

mod laws;

pub use laws::checked_runs_keep_parts;
