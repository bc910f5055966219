//! For each session of a repository the pages that its client may have, of these the objects that
//! another session has written since, and the places of the news that its client hasn't acknowledged.
#![tactic(auto)]

mod invalid_set;
mod invalid_sets;
mod marked;
mod noted_places;
mod place_queue;
mod set_laws;
mod sets;

pub use marked::Marked;
pub use set_laws::{places_say_what_was_told, sets_say_what_was_called, sets_stay_ordered};
pub use sets::Sets;
