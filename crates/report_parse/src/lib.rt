//! The text of a report, read back.
#![tactic(auto)]

mod behind;
mod causes;
mod items;
mod laws;
mod lines;
mod names;
mod numbers;
mod part;
mod reading;
mod report;
mod unread;

pub use laws::{printed_reports_are_read, printed_texts_tell_one_report, texts_tell_reports};
pub use reading::read_report;
pub use report::{Backup, Backups, Line, Lines, Look, Looked, Looks, Report};
