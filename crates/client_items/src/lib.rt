//! How far a client has come in its items, and how they end.
#![tactic(auto)]

mod attempts;
mod meaning;
mod news;
mod opened;
mod progress;

pub use attempts::Attempts;
pub use meaning::Meaning;
pub use news::{Asked, Learnt, News, Settled, Task};
pub use opened::{Items, Opened};
pub use progress::Progress;
