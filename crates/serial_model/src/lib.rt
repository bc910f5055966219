//! The serial history: its entries, what makes it legal, and how each item of a script ended.
#![tactic(auto)]

mod applying;
mod entries;
mod equality;
mod fresh;
mod lines_aside;
mod made;
mod outcomes;
mod replay_laws;
mod replay_rows;
mod replaying;
mod running;
mod upgrading;
mod viewing;
mod whole_maps;

pub use entries::{Did, Dids, What};
pub use fresh::are_fresh;
pub use made::are_made;
pub use outcomes::{Cause, Ended, Ends, ItemOutcome};
pub use replay_laws::{
    beginnings_are_legal, first_schemas_are_made, histories_go_on, histories_keep_names_in_order,
    upgraded_schemas_are_made,
};
pub use replaying::{ReplayError, replay};
pub use running::run_on_current;
pub use upgrading::upgrade_store;
