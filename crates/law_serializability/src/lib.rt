//! The central law: the transactions that commit at several repositories are one legal serial history by rising
//! timestamp. All of it is definitions and laws.
#![tactic(auto)]

mod laws;

pub use laws::{
    histories_are_serial, histories_without_upgrades_are_serial, the_next_opening_goes_on,
    what_is_rested_on_stays,
};
