//! Scripts that are accepted, and stores in memory that begin with them.
#![tactic(auto)]

mod accepting;
mod faults;
mod opening;

pub use accepting::{Begun, begin, first_store};
pub use faults::Unbegun;
pub use opening::{Disks, Store, empty_disks, open_store, plan_of, read_disks, setup_of};
