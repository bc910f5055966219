//! What upgrades keep that a check accepts: the rules on types, ownership, and which objects are due.
#![tactic(auto)]

mod accepted;

pub use accepted::{
    accepted_upgrades_break_no_rule, accepted_upgrades_keep_ownership, numbers_tell_what_is_due,
};
