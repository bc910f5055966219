//! The evaluation of a transaction on a client's copies, which stops where one is missing and goes on from there.
#![tactic(auto)]

mod ahead;
mod bodies;
mod came;
mod copies;
mod direct;
mod direct_statements;
mod entering;
mod granted_names;
mod laws;
mod moved;
mod moves;
mod objects;
mod paused;
mod popping;
mod resting;
mod running;
mod small;
mod starting;
mod unwound;
mod waiting;

pub use copies::Copies;
pub use granted_names::GrantedNames;
pub use laws::what_stands_goes_on_later;
pub use paused::Paused;
