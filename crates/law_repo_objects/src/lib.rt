//! That a repository holds what its history has committed. All of it is definitions and laws.
#![tactic(auto)]

mod laws;

pub use laws::{objects_follow_entries, objects_stay, restarts_keep_objects};
