//! That each call of a repository of the program is a run of the events of which `law_repo_runs` has laws: so a repository
//! that is right stays so, whatever is called and whatever is answered.
//!
//! Each function is the call itself, with that clause. The program calls `repo_core`.
#![tactic(auto)]

mod calls;
mod laws;

pub use calls::{
    ask, checkpoint, commit_one, connect, decide, disarm, draw, fetch, finish, flush, forget,
    format, grant, open, parts, prepare, receive, restart, stop_after,
};
pub use laws::calls_stay_right;
