//! What a repository tells its clients: the messages that wait for each session, and the answers of
//! its calls.
#![tactic(auto)]

mod answers;
mod line;
mod message;
mod outbox;
mod outbox_laws;

pub use answers::{Asked, At, Verdict, Welcome};
pub use message::Message;
pub use outbox::Outbox;
pub use outbox_laws::messages_come_in_order;
