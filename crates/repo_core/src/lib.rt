//! One repository: what it keeps in memory and on its disks, and its events, each of which is one call.
#![tactic(auto)]

mod ask;
mod checkpoint;
mod commit_one;
mod connect;
mod counts;
mod decide;
mod draw;
mod ending;
mod fetch;
mod finish;
mod flush;
mod forget;
mod grant;
mod looks;
mod opening;
mod prepare;
mod receive;
mod refusing;
mod repo;
mod request_form;
mod request_looks;
mod restart;
mod room;
mod stop;
mod writing;

pub use repo::Repo;
pub use repo_durable::{OpenCause, OpenFault};
pub use repo_trace::{Entries, Marks, Trace, Traces};
pub use request_form::is_well_formed;
