//! That the changes of a stored map, lazy upgrades among them, are a legal history from the store that the map stands
//! for. All of it is definitions and laws.
#![tactic(auto)]

mod laws;

pub use laws::{
    changes_are_legal, changes_without_upgrades_are_legal, upgrades_are_the_same_lines_aside,
};
