//! What a plan comes to before its run: its script, and the store that was found, on which the script breaks no rule.
#![tactic(auto)]

mod auditing;
mod finding;
mod judging;
mod reading;
mod replies;
mod starting;
mod stored;

pub use finding::{Judged, find};
pub use reading::{SCRIPT_LIMIT, script_of};
pub use replies::unsettled;
pub use stored::{OpenedStore, opened_of};
