//! Which rule a script breaks, under the schema of its setup and behind each of its upgrades; and the store
//! that a fresh repository opens with.
#![tactic(auto)]

mod epoch_laws;
mod epochs;
mod judging;
mod opening;
mod opening_laws;
mod upgrading;

pub use epoch_laws::{upgrades_are_accepted_in_order, upgrades_of_scripts_name_classes};
pub use epochs::{last_schema, with_upgrades};
pub use judging::judge;
pub use opening::{opened_store, roots_of, schema_of};
pub use opening_laws::{opened_stores_are_well_owned, opened_stores_fit};
pub use upgrading::upgrade_count;
