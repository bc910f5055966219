//! What holds of every run of a transaction.
#![tactic(auto)]

mod runs;

pub use runs::{fault_leaves_the_store, run_changes_what_it_wrote, runs_depend_on_what_they_touch};
