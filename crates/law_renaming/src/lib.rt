//! That a run depends on the names of its new objects only up to renaming.
#![tactic(auto)]

mod renaming;
mod rows;

pub use renaming::{
    answers_hang_on_no_names, names_at_hand_last, runs_are_defined_for_names_at_hand,
    runs_differ_in_names_alone, runs_leave_names_unused, runs_take_the_names_that_they_need,
};
