//! What a repository remembers of transactions to validate requests against, what stands against a
//! request, and that a validation queue answers and moves alike.
#![tactic(auto)]

mod queue_laws;
mod refusal;
mod refusal_examples;
mod window_laws;

pub use queue_laws::{queues_answer_by_the_window, queues_keep_the_window};
pub use refusal::Refusal;
pub use refusal_examples::{verdict_examples, window_examples};
pub use window_laws::windows_cover;
