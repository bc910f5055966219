//! The history of one repository and what it means: which transactions stand committed, what each
//! entry owes to those before it, and the laws by which such a history is serial.
#![tactic(auto)]

mod history_examples;
mod history_laws;
mod outcome_laws;

pub use history_examples::{
    created_name_examples, life_examples, mended_example, opening_examples, sound_examples,
    standing_examples, unsound_examples, value_examples, vouching_examples,
};
pub use history_laws::{
    bases_are_kept, commits_make_the_state, created_objects_are_new, histories_are_checked,
    histories_grow, lives_follow, objects_are_written, outcomes_are_final, reads_are_last_writes,
    requests_are_recorded, sound_histories_grow, sound_histories_have_order, upgrades_are_bare,
    upgrades_fence, writers_rise,
};
pub use outcome_laws::{entries_make, entries_settle, entries_tell};
