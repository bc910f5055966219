//! A repository of a run that stands right: whatever it can't believe of a call it tests.
//!
//! Each event of it is a run of the events of which `law_repo_runs` has laws, whoever calls it and whatever is answered.
#![tactic(auto)]

mod beginning;
mod calls;
mod clients;
mod events;
mod happening;
mod laws;
mod made;
mod opening;
mod participants;
mod sessions;
mod site;
mod spoken;
mod testing;

pub use laws::{decided_here, forgotten_was_kept, sites_stay_right, tested_requests_are_sent};
pub use opening::Opening;
pub use site::Site;
