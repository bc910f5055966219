//! What a client holds between its calls: sessions, copies of objects, names for new ones, what it owes, and
//! how far its try has come.
#![tactic(auto)]

mod calls;
mod causes;
mod duties;
mod evaluating;
mod held;
mod learning;
mod link;
mod messages;
mod phase;
mod requests;
mod transaction;
mod transform;

pub use calls::{Came, Drew};
pub use causes::{cause_of, has_stopped};
pub use duties::{Abort, Duties, Duty, Helping};
pub use held::Held;
pub use link::{Link, Waits};
pub use phase::Phase;
pub use requests::Sending;
pub use transaction::{Sent, Share, Transaction};
pub use transform::{Becomes, Stage, Transform};
