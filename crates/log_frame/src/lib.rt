//! A log on a disk that a crash may tear.
#![tactic(auto)]

mod append;
mod fault;
mod format;
mod log;
mod reading;

pub use fault::LogFault;
pub use log::{Log, Records};
