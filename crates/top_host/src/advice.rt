//! What is told to the person at the program, beside its answer.

use crate::noting::Noted;
use top_reply::Status;

/// What is told where memory was not there, and no run came to its end.
pub const NO_MEMORY: &str =
    "there was not enough memory (status 9); a store has what was committed before that";

const NO_REPORT: &str =
    "the run ended, and then there was not enough memory to report it (status 9); a store has what was committed";

const FAILED_CHECK: &str =
    "the run ended, and then its history failed the program's own check (status 9): this is a fault of the program; a store has what was committed";

const CHANGED: &str =
    "a disk gave other bytes than a moment before, so the store wasn't opened (status 9): copy its files to another disk, and look after this one";

const CLOCK_END: &str =
    "no time is left for a timestamp (ClockEnd): the machine's clock is wrong by ages, or was as something was committed; set it, and where the store refuses everything still, put its files back from a copy (docs/TASKS.md)";

/// Tells it on standard error. Where that takes nothing, nothing is told.
pub fn advise(rt: HostRuntime, advice: &str) {
    let _ = eprintln!(rt; "{advice}");
}

/// How a run ended.
#[derive(Clone, Copy)]
pub struct Behind {
    /// Whether one was made.
    pub is_run: bool,
    /// Whether its history didn't pass its check.
    pub is_unsound: bool,
    /// Whether a disk gave other bytes than as the store was read.
    pub is_changed: bool,
    /// What its report tells.
    pub noted: Noted,
}

/// Tells what the status and the report leave open.
pub fn advise_behind(rt: HostRuntime, status: Status, behind: Behind) {
    match status {
        Status::NoMemory if behind.is_unsound => advise(rt, FAILED_CHECK),
        Status::NoMemory if behind.is_changed => advise(rt, CHANGED),
        Status::NoMemory if behind.is_run => advise(rt, NO_REPORT),
        Status::NoMemory => advise(rt, NO_MEMORY),
        Status::Unfinished if behind.noted.is_clock_end => advise(rt, CLOCK_END),
        _ => {}
    }
}
