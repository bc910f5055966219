//! What a repository keeps in memory of the state for which its log stands.
#![tactic(auto)]

mod fault;
mod held;
mod making;
mod spelling;
mod state;
mod writes;

pub use fault::HoldFault;
pub use making::merged;
pub use state::HeldState;
pub use writes::later_of;
