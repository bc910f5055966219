//! Stores that fit their schema: what checked code does on them, and that a strict meaning, which gets stuck where a run
//! goes on with a stand-in, does the same.
#![tactic(auto)]

mod fitting;
mod rows;

pub use fitting::{
    checked_code_keeps_states_fitting, checked_runs_fit, strict_meaning_tells_what_runs_do,
};
