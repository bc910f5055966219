//! The events of a schedule: what the system does, one event after the other.
#![tactic(auto)]

mod checking;
mod events;
mod kinds;
mod numbers;
mod parsing;
mod reader;
mod steps;

pub use checking::check_events;
pub use events::{Event, EventKind, Events};
pub use parsing::parse_schedule;
