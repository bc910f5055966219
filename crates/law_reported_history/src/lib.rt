//! That the history which is reported of a run is the whole history of its repositories, of which the serial law speaks, and that what
//! is left of their disks stands for it. All of it is definitions and laws.
#![tactic(auto)]

mod laws;

pub use laws::{
    committed_lines_are_the_whole_history, reported_histories_are_whole, traces_of_a_run_are_sound,
    what_is_left_stands_for_the_history,
};
