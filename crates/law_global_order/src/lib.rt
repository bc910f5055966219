//! The histories of several repositories as one serial history by rising timestamps. All of it is definitions
//! and laws.
#![tactic(auto)]

mod examples;
mod laws;

pub use examples::{commits_with_an_upgrade, crossing_commits, unjoined_commits, unsound_commits};
pub use laws::{
    commits_are_computed, commits_are_joined, created_objects_are_fresh, epochs_are_joined,
    prepared_transactions_stay, readers_meet_commits, repositories_come_to_commits,
    repositories_come_to_upgrades, several_are_serial, upgrades_fence_all,
};
