//! That transforming objects lazily is unseen, and who owns what in a stored map.
#![tactic(auto)]

mod lazy;
mod ownership;
mod upgrades;

pub use lazy::{
    eager_objects, transforms_are_unseen, undue_objects_stay, upgrade_moves_up, values_are_local,
    written_stores_stand,
};
pub use ownership::{
    eager_stays_owned, owners_are_alone, references_shrink, transforms_stay_owned,
    upgrades_stay_owned,
};
pub use upgrades::{nothing_due, upgrades_leave_other_classes};
