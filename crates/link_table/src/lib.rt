//! A relation of pairs of numbers as doubly linked lists by index: one list of each left, one of each
//! right, and one of all pairs.
#![tactic(auto)]

mod ends;
mod links;
mod node;
mod table;

pub use links::Links;
