//! The check of the rules on upgrades, O1 to O7, and of the schema behind an upgrade.
#![tactic(auto)]

mod applied;
mod checking;
mod classes;
mod expressions;
mod fields;
mod inside;
mod laws;
mod outside;
mod paths;

pub use applied::{apply, has_next_number};
pub use checking::{Owned, own_check};
pub use laws::one_upgrade_follows_another;
