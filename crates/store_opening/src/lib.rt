//! A store's parts, read and checked before any of them is written.
#![tactic(auto)]

mod alike;
mod closed;
mod eager;
mod examples;
mod fault;
mod fit;
mod found;
mod joined;
mod misfit;
mod separate;
mod standing;

pub use closed::{Closed, give_back};
pub use examples::disks_stand_for_their_objects;
pub use fault::ClusterFault;
pub use found::Found;
