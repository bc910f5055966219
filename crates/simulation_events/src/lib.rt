//! Events of schedules: as the program reads them, and what they have come to in runs.
#![tactic(auto)]

mod coverage;
mod deeds;
mod reading;

pub use coverage::{Coverage, Totals};
pub use deeds::{DEEDS, Deed, EVENTS, deed_of_item, deed_word, event_number, event_word};
pub use reading::{events_of, own_script};
