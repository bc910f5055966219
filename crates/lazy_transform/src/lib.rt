//! Lazy upgrades of one object: which objects its upgrades read, and what they make of it.
#![tactic(auto)]

mod laws;
mod past;
mod paths;
mod raising;
mod transform;
mod wanted;

pub use laws::values_rest_on_what_is_read;
pub use transform::{bring, wants};
pub use wanted::Wanted;
