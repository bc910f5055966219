//! The copies of objects that a client holds, page by page, with what the running try has made of them.
#![tactic(auto)]

mod cache;
mod changes;
mod held_pages;
mod look;
mod name_set;
mod page_copies;
mod page_name;
mod placing;
mod spelled;

pub use cache::Cache;
pub use look::Looked;
pub use page_copies::Slot;
pub use page_name::PageName;
