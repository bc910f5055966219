//! Upgrades read from tokens.
#![tactic(auto)]

mod deep;
mod expressions;
mod laws;
mod parse;
mod printing;
mod rows;
mod starts;
mod upgrades;
mod whole;

pub use laws::{printed_upgrades_are_read, upgrade_spellings_are_unique};
pub use parse::parse_upgrade;
pub use printing::print_upgrade;
