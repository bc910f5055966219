//! What an event has come to, as far as repositories show it.

use base_reasons::Reason;
use log_entries::Entry;
use repo_refusals::Refusal;
use schedule::EventKind;
use serial_model::Cause;
use spec_trace::{KeptItem, Mark};

/// How many kinds of events there are, turns behind the last event included.
pub const EVENTS: usize = 8;

/// How many kinds of deeds there are.
pub const DEEDS: usize = 34;

/// What an event has come to.
#[derive(Clone, Copy)]
pub enum Deed {
    /// Nothing that a repository shows: nothing was to be done, or a verdict was asked for.
    Nothing,
    /// A repository went down in it.
    Stopped,
    /// A repository came back.
    Restarted,
    /// A repository came back, with the entry that was being written.
    Came,
    Connected,
    Fetched,
    Granted,
    Took,
    Drew,
    Forgot,
    One,
    Prepared,
    Committed,
    Aborted,
    Finished,
    GaveUp,
    Upgraded,
    Gone,
    Epoch,
    Blocked,
    TooOld,
    Stale,
    Earlier,
    Later,
    Full,
    ClockEnd,
    Down,
    /// An item ended without a commit, for want of an object, or of calls.
    Missing,
    Calls,
    /// An item ended.
    Done,
    Faulted,
    Refused,
    Unknown,
    UpgradeDone,
}

/// The number of a deed, below `DEEDS`.
pub(crate) fn number_of(deed: Deed) -> usize {
    match deed {
        Deed::Nothing => 0,
        Deed::Stopped => 1,
        Deed::Restarted => 2,
        Deed::Came => 3,
        Deed::Connected => 4,
        Deed::Fetched => 5,
        Deed::Granted => 6,
        Deed::Took => 7,
        Deed::Drew => 8,
        Deed::Forgot => 9,
        Deed::One => 10,
        Deed::Prepared => 11,
        Deed::Committed => 12,
        Deed::Aborted => 13,
        Deed::Finished => 14,
        Deed::GaveUp => 15,
        Deed::Upgraded => 16,
        Deed::Gone => 17,
        Deed::Epoch => 18,
        Deed::Blocked => 19,
        Deed::TooOld => 20,
        Deed::Stale => 21,
        Deed::Earlier => 22,
        Deed::Later => 23,
        Deed::Full => 24,
        Deed::ClockEnd => 25,
        Deed::Down => 26,
        Deed::Missing => 27,
        Deed::Calls => 28,
        Deed::Done => 29,
        Deed::Faulted => 30,
        Deed::Refused => 31,
        Deed::Unknown => 32,
        Deed::UpgradeDone => 33,
    }
}

const WORDS: [&str; 34] = [
    "nothing",
    "stopped",
    "restarted",
    "came",
    "connected",
    "fetched",
    "granted",
    "took",
    "drew",
    "forgot",
    "one",
    "prepared",
    "committed",
    "aborted",
    "finished",
    "gave-up",
    "upgraded",
    "Gone",
    "Epoch",
    "Blocked",
    "TooOld",
    "Stale",
    "Earlier",
    "Later",
    "Full",
    "ClockEnd",
    "Down",
    "Missing",
    "Calls",
    "Done",
    "Faulted",
    "Refused",
    "Unknown",
    "Upgraded",
];

/// The word for a deed of a number.
pub fn deed_word(number: usize) -> &'static str {
    match WORDS.as_slice().get(number) {
        Some(word) => *word,
        None => "",
    }
}

/// The word for a kind of events of a number.
pub fn event_word(number: usize) -> &'static str {
    match number {
        0 => "s",
        1 => "d",
        2 => "f",
        3 => "k",
        4 => "x",
        5 => "c",
        6 => "q",
        _ => "end",
    }
}

/// The number of a kind of events, below `EVENTS`.
pub fn event_number(kind: EventKind) -> usize {
    match kind {
        EventKind::Step { .. } => 0,
        EventKind::Deliver { .. } => 1,
        EventKind::Flush { .. } => 2,
        EventKind::Checkpoint { .. } => 3,
        EventKind::Stop { .. } => 4,
        EventKind::Restart { .. } => 5,
        EventKind::Settle { .. } => 6,
        EventKind::Unknown => 7,
    }
}

/// What an entry is.
fn deed_of_entry(entry: &Entry) -> Deed {
    match entry {
        Entry::Life { .. } => Deed::Restarted,
        Entry::One { .. } => Deed::One,
        Entry::Prepared { .. } => Deed::Prepared,
        Entry::Decided { commit, .. } => {
            if *commit {
                Deed::Committed
            } else {
                Deed::Aborted
            }
        }
        Entry::Finished { commit, .. } => {
            if *commit {
                Deed::Finished
            } else {
                Deed::GaveUp
            }
        }
        Entry::Upgraded { .. } => Deed::Upgraded,
    }
}

fn deed_of_reason(reason: Reason) -> Deed {
    match reason {
        Reason::Gone { .. } => Deed::Gone,
        Reason::Epoch { .. } => Deed::Epoch,
        Reason::Blocked { .. } => Deed::Blocked,
        Reason::TooOld { .. } => Deed::TooOld,
        Reason::Stale { .. } => Deed::Stale,
        Reason::Earlier { .. } => Deed::Earlier,
        Reason::Later { .. } => Deed::Later,
        Reason::Full { .. } => Deed::Full,
        Reason::ClockEnd => Deed::ClockEnd,
    }
}

fn deed_of_refusal(refusal: Refusal) -> Deed {
    match refusal {
        Refusal::Reason(reason) => deed_of_reason(reason),
        _ => Deed::Down,
    }
}

/// Why an item was refused.
pub(crate) fn deed_of_cause(cause: Cause) -> Deed {
    match cause {
        Cause::Reason(reason) => deed_of_reason(reason),
        Cause::Missing { .. } => Deed::Missing,
        Cause::Down { .. } => Deed::Down,
        Cause::Calls => Deed::Calls,
    }
}

/// What an item of a trace is, by the entries of its history.
pub fn deed_of_item(item: &KeptItem, history: &[Entry]) -> Deed {
    match item {
        KeptItem::Entry { place } => match history.get(*place as usize) {
            Some(entry) => deed_of_entry(entry),
            None => Deed::Nothing,
        },
        KeptItem::Mark { mark } => deed_of_mark(mark),
    }
}

/// What a mark is.
fn deed_of_mark(mark: &Mark) -> Deed {
    match mark {
        Mark::Connected { .. } => Deed::Connected,
        Mark::Fetched { .. } => Deed::Fetched,
        Mark::Granted { .. } => Deed::Granted,
        Mark::Took { .. } => Deed::Took,
        Mark::Drew { .. } => Deed::Drew,
        Mark::Forgot { .. } => Deed::Forgot,
        Mark::Refused { refusal, .. } => deed_of_refusal(*refusal.get()),
    }
}
