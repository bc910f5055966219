//! What an evaluation answers, said without its definition.
#![tactic(auto)]

mod evaluations;
mod names;

pub use evaluations::{
    answers_hold_where_the_objects_read_are_the_same, evaluations_of_whole_stores_are_runs,
    owners_told_are_those_above, what_is_needed_is_not_at_hand,
    what_is_read_and_not_at_hand_is_needed,
};
pub use names::granted_names_have_no_stand_ins;
