//! Pages: a map from slots to bytes, and its one spelling of 16,384 bytes, or of 4,096 as older stores have it.
#![tactic(auto)]

mod fault;
mod format;
mod image;
mod page;
mod sides;
mod splice;
mod walk;

pub use fault::{Damaged, Full};
pub use format::{OLDER_PAGE as OLDER_PAGE_BYTES, StoreFormat};
pub use image::PageImage;
pub use page::{Page, pages_are_apart, twelve_objects_fit};
pub use sides::{Room, Sides};
pub use walk::PAGE as PAGE_BYTES;
