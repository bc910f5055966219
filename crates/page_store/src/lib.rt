//! Pages of objects on a disk that a crash may tear: each page has two sides, of which one is in use.
#![tactic(auto)]

mod device;
mod fault;
mod objects;
mod store;

pub use device::{place_in, read_side_in};
pub use fault::StoreFault;
pub use store::{PageStore, empty_pages_have_objects};
