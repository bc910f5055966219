//! What a client sees of its repositories through a port, and what each call of a port promises. It is definitions
//! and laws, with a plain repository that keeps each promise.
#![tactic(auto)]

mod examples;
mod laws;
mod outages;
mod standing;

pub use examples::{what_calls_do, what_calls_do_not};
pub use laws::{growth_composes, kept_sessions_keep_promises, plain_calls_keep_their_promises};
pub use outages::{
    idle_calls_keep_their_promises, plain_ports_do, restarts_are_growth,
    stopped_calls_keep_their_promises,
};
pub use standing::states_tell_what_is_unsettled;
