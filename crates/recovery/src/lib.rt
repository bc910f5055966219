//! What a repository is, read from its logs; and one of the older format moved into the one that is written.
#![tactic(auto)]

mod bodies;
mod fault;
mod migrating;
mod pages;
mod recovered;
mod recovering;

pub use fault::RecoverFault;
pub use migrating::migrate;
pub use pages::read_objects;
pub use recovered::Recovered;
pub use recovering::recover;
