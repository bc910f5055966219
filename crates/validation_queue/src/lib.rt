//! The transactions against which a repository validates a request: the undecided ones, and those
//! that committed last. The threshold stands for all that committed before.
#![tactic(auto)]

mod clashes;
mod common;
mod member;
mod members;
mod name_set;
mod queue;

pub use member::Member;
pub use name_set::{NameSet, is_in_order, is_one_of};
pub use queue::Queue;
