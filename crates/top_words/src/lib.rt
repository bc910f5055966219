//! The words of the program: what they ask for, or that they are none of its own.
#![tactic(auto)]

mod command;
mod parsing;

pub use command::{Command, Plan, WordsFault, read_words};
