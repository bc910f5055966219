//! Whether a report is true of a script: its history is one legal serial history of the script's items from the script's
//! store, which answers each of them once and each client's in its order. Else the first line of the report that isn't so.
#![tactic(auto)]

mod agreement_laws;
mod audited;
mod auditing;
mod disagreement;
mod items;
mod lines;
mod standing;
mod standings;

pub use agreement_laws::a_report_agrees_or_first_disagrees_in_one_place;
pub use audited::Audited;
pub use auditing::audit;
pub use disagreement::{AuditFault, Disagreement};
