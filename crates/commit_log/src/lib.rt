//! A repository's log with the state for which it stands.
#![tactic(auto)]

mod examples;
mod fault;
mod finding;
mod laws;
mod open_log;

pub use examples::{commits_are_buffered, prepared_transactions_are_decided, upgrades_are_fences};
pub use fault::FindFault;
pub use finding::open_logs;
pub use laws::{
    damaged_logs_stand_for_nothing, entries_say_their_writes, installs_say_the_same, logs_grow,
    migrations_say_the_same, values_are_last_writes,
};
pub use open_log::CommitLog;
