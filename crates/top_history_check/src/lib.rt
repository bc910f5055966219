//! Whether a run's outcomes and history are what they claim to be: the history is legal from the opened store,
//! and each item of the script is answered by it once, in its client's order.
#![tactic(auto)]

mod answers;
mod assembling;
mod checking;
mod order;
mod places;

pub use assembling::{ClientItems, Items, Line, Lines};
pub use checking::{CheckedHistory, checked_history};
