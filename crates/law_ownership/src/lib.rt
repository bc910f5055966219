//! That checked transactions keep ownership, and commute with what a stored map stands for.
#![tactic(auto)]

mod laws;

pub use laws::{
    checked_transactions_keep_ownership, maps_that_fit_stand_for_stores_that_fit, run_commutes,
};
