//! The buffer of modified objects: what was committed and doesn't stand in its page yet.
#![tactic(auto)]

mod fault;
mod mob;
mod objects;
mod size;
mod tally;

pub use fault::MobFull;
pub use mob::Mob;
pub use size::spelled_bytes;
