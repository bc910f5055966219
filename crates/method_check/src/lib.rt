//! The check of the language's rules T1 to T8.
#![tactic(auto)]

mod assignments;
mod blocks;
mod body;
mod checking;
mod classes;
mod declared;
mod error;
mod judge;
mod kinds;
mod laws;
mod least;
mod methods;
mod names;
mod nodes;

pub use checking::{check, check_item, note_item, note_schema};
pub use classes::{class_rules, methods as methods_rules};
pub use error::CheckError;
pub use kinds::is_part;
pub use laws::the_least_fault_is_told;
pub use least::{lesser, must};
