//! The summary of a run of the generated script: how its items ended, and the sum of its accounts.
#![tactic(auto)]

mod accounts;
mod counting;
mod summary;

pub use accounts::accounts_sum;
pub use summary::print_summary;
