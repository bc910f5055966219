//! What happens at one repository beside its history: its trace, with the marks of what no log keeps; what
//! sessions are sent, and why the copies that they hold stay right; the verdict on a request of a session;
//! and what each item of a trace owes to the trace before it.
#![tactic(auto)]

mod acceptance_laws;
mod answer_examples;
mod epoch_laws;
mod gap_laws;
mod item_examples;
mod item_laws;
mod kept_item;
mod mark;
mod refusing_mark;
mod session_laws;
mod told_examples;
mod trace_laws;

pub use acceptance_laws::{accepted_requests_are_current, verdicts_are_sound};
pub use answer_examples::{
    buffer_examples, gone_examples, order_examples, stale_examples, window_room_examples,
};
pub use epoch_laws::{epochs_are_told, fences_count, thresholds_commit};
pub use gap_laws::copies_outlive_others;
pub use item_examples::{call_examples, exact_examples, growth_examples, inexact_examples};
pub use item_laws::{
    accepted_requests_continue, answers_agree, exact_traces_grow, next_numbers_rise,
    pages_are_granted, sessions_are_numbered, sessions_end_for_a_cause, stamps_are_drawn_once,
};
pub use kept_item::KeptItem;
pub use mark::Mark;
pub use refusing_mark::refused_mark;
pub use session_laws::{
    commits_are_told, copies_are_current, copies_stay_right, current_copies_stay,
    messages_are_in_order, messages_keep_copies, own_writes_stay, pages_bring_what_was_read,
    pages_stay, sessions_grow,
};
pub use told_examples::{
    own_write_examples, session_examples, session_life_examples, trace_example,
};
pub use trace_laws::traces_grow;
