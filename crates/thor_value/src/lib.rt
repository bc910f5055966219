//! The names, times and values that every other crate speaks of, and the list and box types that
//! contracts see as what they hold.
#![tactic(auto)]

mod boxed;
mod bytes;
mod lists;
mod memory;
mod name_laws;
mod names;
mod oref_map;
mod oref_set;
mod pairing;
mod searching;
mod sequence;
mod shared;
mod step_count;
mod values;
mod words;

pub use boxed::Boxed;
pub use bytes::{
    ReadFault, put_oref, put_ts, put_value, read_oref, read_ts, read_value, spellings_are_apart,
};
pub use lists::{Ints, Orefs, Repos, Stamps, Text, Texts, Values, Writes};
pub use memory::{NoMemory, TryCopy};
pub use name_laws::{names_are_ordered, timestamps_are_ordered};
pub use names::{Oref, PAGES, REPOSITORIES, SLOTS, Ts};
pub use oref_map::OrefMap;
pub use oref_set::OrefSet;
pub use pairing::both;
pub use searching::{comes_last, place_of};
pub use sequence::Sequence;
pub use shared::Shared;
pub use step_count::StepCount;
pub use values::{Answer, Fault, Obj, Value, Who};
pub use words::{WORD_BYTES, Word, is_text_byte};
