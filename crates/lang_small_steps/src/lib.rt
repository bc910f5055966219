//! What is left of a run that stops and goes on: frames over syntax with several owners, and what they mean.
#![tactic(auto)]

mod frames;
mod laws;
mod limits;
mod methods;
mod parameters;
mod stack;
mod syntax;

pub use frames::{Doing, Frame};
pub use laws::{
    a_small_step_keeps_what_is_left, a_small_step_leaves_fewer, names_taken_are_distinct,
    names_taken_are_enough, small_steps_reach_what_is_left, what_is_left_goes_on_later,
};
pub use limits::RECURSION_LIMIT;
pub use methods::{
    CLASS_LIMIT, ClassMethods, EpochMethods, SharedMethod, SharedMethods, class_methods,
    shared_method,
};
pub use parameters::{TypedParameter, TypedParameters};
pub use stack::Stack;
pub use syntax::{SharedBlock, SharedExprs, SharedStmt};
