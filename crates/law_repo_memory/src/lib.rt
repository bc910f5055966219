//! That what a repository has in memory says what its history says, whatever event comes, and that its history owes
//! nothing. All of it is definitions and laws.
#![tactic(auto)]

mod entry_laws;
mod mark_laws;
mod run_laws;
mod verdict_laws;

pub use entry_laws::{decisions_agree, lives_agree, open_requests_are_members, requests_agree};
pub use mark_laws::{entries_are_exact, marks_agree, marks_are_exact, refusals_are_exact};
pub use run_laws::{repositories_begin, runs_agree};
pub use verdict_laws::{accepted_requests_are_owed, sessions_answer, verdicts_agree};
