//! That a repository is as its trace says whatever happens to it, restarts among it. All of it is definitions and laws.
#![tactic(auto)]

mod laws;

pub use laws::{repositories_open, runs_stay_right, what_is_right};
