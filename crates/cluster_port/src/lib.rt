//! The repositories of a run, as one client calls them while nobody else acts: a port that shows what they do.
#![tactic(auto)]

pub mod calls;
pub mod events;
mod lent;

pub use lent::{Count, LentSites};
pub use repo_site::{Opening, Site};
