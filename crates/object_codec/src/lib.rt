//! The bytes of objects: one spelling for each, read and written exactly.
#![tactic(auto)]

mod fault;
mod reading;
mod writing;

pub use fault::ObjFault;
pub use reading::{objects_are_apart, read_obj};
pub use writing::put_obj;
