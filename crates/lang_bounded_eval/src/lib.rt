//! The evaluation of a transaction over the objects at hand: by plain recursion up to a depth, and by small steps behind it.
#![tactic(auto)]

mod beginning_steps;
mod evaluation;
mod frames;
mod giving;
mod limits;
mod run;
mod small_steps;

pub use evaluation::eval;
