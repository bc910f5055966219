//! The sessions of a repository's clients: which are live, what their clients may have cached, what of it
//! others have written since, and what waits for them.
#![tactic(auto)]

mod counts;
mod sessions;
mod telling;

pub use sessions::Sessions;
