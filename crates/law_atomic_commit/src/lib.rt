//! The histories of several repositories together: when a transaction has committed, and what two-phase
//! commit keeps. All of it is definitions and laws.
#![tactic(auto)]

mod asking;
mod examples;
mod laws;

pub use asking::{
    forgotten_stay_finished, tables_answer_as_their_traces, what_is_asked_is_told_rightly,
};
pub use examples::{
    answers_of_a_coordinator, crossing_transactions, needs_agreement, needs_all_participants,
    needs_giving_up, needs_the_coordinator,
};
pub use laws::{
    atomic_stays, commits_stay, committed_parts_live, knowledge_stays, participants_are_known,
    several_begin, traces_give_histories,
};
