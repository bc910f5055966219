//! What the program has to write, and that of a run only where the run's history was checked.
#![tactic(auto)]

mod checking;
mod form;
mod reply;
mod running;
mod status;
mod texts;
mod untold;

pub use checking::report;
pub use form::Form;
pub use reply::Reply;
pub use running::Running;
pub use status::Status;
pub use texts::{
    damaged_text, disagreement_text, disk_text, limit_text, no_report_text, status_of,
};
pub use top_history_check::Line;
pub use untold::Untold;
