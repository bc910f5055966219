//! What a client keeps of a repository, against the trace that it has seen, and that growth by others and each of its own
//! calls leaves it right. It is definitions and laws.
#![tactic(auto)]

mod acting;
mod calls;
mod conditions;
mod doomed;
mod examples;
mod falling;
mod growth;
mod known_places;
mod learning;
mod lent;
mod lent_sending;
mod links;
mod outcomes;
mod refusals;
mod verdicts;
mod whole_calls;

pub use acting::{acting_links_fit, new_clients_fit, waiting_clients_fit};
pub use calls::{
    asked_clients_fit, commits_rest, deciding_clients_fit, joined_clients_fit,
    receiving_clients_fit, sending_clients_fit, telling_clients_fit,
};
pub use conditions::{sent_requests_continue, shown_calls_may_come};
pub use doomed::{
    doomed_transactions_stay, joined_sessions_are_quiet, quiet_sessions_owe_nothing,
    quiet_sessions_stay, what_is_doomed,
};
pub use examples::{what_agrees, what_does_not_fit, what_fits};
pub use falling::{falling_ends, owed_calls};
pub use growth::{others_act, outcomes_are_told};
pub use known_places::{
    named_objects_were_written, stale_places_are_passed, stale_writes_are_told,
    told_places_are_known,
};
pub use learning::{
    fewer_copies_fit, gone_sessions_are_own, learning_links_fit, refused_links_fit,
};
pub use lent::{asking_links_fit, connecting_links_fit, other_links_fit, taking_links_fit};
pub use lent_sending::{deciding_links_fit, sending_links_fit, telling_links_fit};
pub use links::{copies_become_what_messages_bring, links_outlive_others, links_tell_what_is_kept};
pub use outcomes::{atomic_histories_agree, others_decide_nothing};
pub use refusals::{drawn_timestamps_are_above, refusals_are_exact, taken_names_were_written};
pub use verdicts::{decided_links_fit, verdicts_keep_all_links};
pub use whole_calls::{
    asking_keeps_all_links, committing_keeps_all_links, deciding_keeps_all_links,
    refusals_keep_all_links, taking_keeps_all_links, telling_keeps_all_links,
};
