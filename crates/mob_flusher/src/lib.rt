//! The objects of a repository as one finite map: the buffer of modified objects over pages.
#![tactic(auto)]

mod image;
mod kept_images;
mod store;

pub use store::{Flushed, ObjectStore};
