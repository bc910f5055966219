//! What the program replies to its words: its statement, and the types of what it is made of.
#![tactic(auto)]

mod answered;
mod unwritten;
mod writing;

pub use answered::{Answered, Outcome, StoreParts, are_parts_of, unplayed, untouched};
pub use writing::write_answer;
