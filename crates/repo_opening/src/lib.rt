//! One repository, as an opening finds it on its disks: what its log stands for, and its pages.
#![tactic(auto)]

mod known;
mod pages;
mod repository;
mod settled;
mod unheld;
mod unopened;

pub use known::Known;
pub use repository::{Read, read_repository};
pub use settled::Settled;
pub use unopened::{Unopened, fault_of, number_at};
