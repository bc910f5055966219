//! A small whole run of two repositories that meets what the serial law asks for, and what the law says of it.
#![tactic(auto)]

mod rows;

pub use rows::{a_missing_part_is_told_with_its_owner, a_run_is_serial, a_run_meets_the_premises};
