//! What is recovered of a repository opens as a base of histories. All of it is definitions and laws.
#![tactic(auto)]

mod laws;

pub use laws::{what_is_recovered_opens_as_a_base, what_was_left_prepared_can_open};
