//! What happened at a repository, in words.

use log_entries::{Entry, Kind, Request};
use repo_refusals::Refusal;
use report_text::{
    print_cause, print_number, print_oref, print_ts, print_who, print_with_ts, print_word,
};
use schedule::EventKind;
use serial_model::Cause;
use spec_trace::{KeptItem, Mark};
use std::fmt::Write;
use thor_value::{Boxed, NoMemory, Oref, Ts};

/// Prints an event as a schedule has it.
pub(crate) fn print_event(out: &mut String, kind: EventKind) -> Result<(), NoMemory> {
    match kind {
        EventKind::Step { client } => write!(out, "s{client}")?,
        EventKind::Deliver { client, repo } => write!(out, "d{client}.{repo}")?,
        EventKind::Flush { repo } => write!(out, "f{repo}")?,
        EventKind::Checkpoint { repo } => write!(out, "k{repo}")?,
        EventKind::Stop { repo, calls } => write!(out, "x{repo}.{calls}")?,
        EventKind::Restart { repo, pick } => write!(out, "c{repo}.{pick}")?,
        EventKind::Settle { repo } => write!(out, "q{repo}")?,
        EventKind::Unknown => out.push_str("?")?,
    }
    Ok(())
}

fn print_orefs(out: &mut String, orefs: &[Oref]) -> Result<(), NoMemory> {
    for oref in orefs {
        print_oref(out, *oref)?;
    }
    Ok(())
}

fn kind_word(kind: &Kind) -> &'static str {
    match kind {
        Kind::App => "item",
        Kind::Transform => "transform",
        Kind::Upgrade { .. } => "upgrade",
    }
}

/// Prints a request: its transaction, its item, its session, what it is of, and the objects that it has read and written.
fn print_request(out: &mut String, request: &Request) -> Result<(), NoMemory> {
    out.push_str(" ")?;
    print_ts(out, request.tx)?;
    out.push_str(" ")?;
    print_who(out, request.who)?;
    print_number(out, u64::from(request.session))?;
    print_word(out, kind_word(&request.kind))?;
    print_word(out, "reads")?;
    print_orefs(out, request.ros.as_slice())?;
    print_word(out, "writes")?;
    for write in request.writes.as_slice() {
        print_oref(out, write.0)?;
    }
    Ok(())
}

/// Prints a word and a request.
fn print_asked(out: &mut String, word: &str, request: &Request) -> Result<(), NoMemory> {
    print_word(out, word)?;
    print_request(out, request)
}

/// Prints a decision on a transaction, or that it was learnt.
fn print_decision(out: &mut String, word: &str, tx: Ts, commits: bool) -> Result<(), NoMemory> {
    print_with_ts(out, word, tx)?;
    print_word(out, if commits { "commit" } else { "abort" })
}

/// Prints an entry, with its place.
fn print_entry(out: &mut String, place: u64, entry: &Entry) -> Result<(), NoMemory> {
    print_word(out, "entry")?;
    print_number(out, place)?;
    match entry {
        Entry::Life { life } => {
            print_word(out, "life")?;
            print_number(out, u64::from(*life))
        }
        Entry::One { request } => print_asked(out, "one", request),
        Entry::Prepared { request } => print_asked(out, "prepared", request),
        Entry::Upgraded { request } => print_asked(out, "upgraded", request),
        Entry::Decided { tx, commit } => print_decision(out, "decided", *tx, *commit),
        Entry::Finished { tx, commit } => print_decision(out, "finished", *tx, *commit),
    }
}

/// Prints why a call was refused.
fn print_refusal(out: &mut String, refusal: Refusal) -> Result<(), NoMemory> {
    match refusal {
        Refusal::Reason(reason) => print_cause(out, Cause::Reason(reason)),
        Refusal::Down { repo } => print_cause(out, Cause::Down { repo }),
        Refusal::Stopped { .. } => print_word(out, "Stopped"),
        Refusal::Damaged { .. } => print_word(out, "Damaged"),
        Refusal::NoMemory => print_word(out, "NoMemory"),
    }
}

/// Prints that a call in a session was refused: why, and after the word `by` the request, where it was one.
fn print_refused(
    out: &mut String,
    session: u32,
    request: &Option<Boxed<Request>>,
    refusal: Refusal,
) -> Result<(), NoMemory> {
    print_in_session(out, "refused", session)?;
    print_refusal(out, refusal)?;
    match request {
        Some(request) => print_asked(out, "by", request.get()),
        None => Ok(()),
    }
}

/// Prints a word and a session.
fn print_in_session(out: &mut String, word: &str, session: u32) -> Result<(), NoMemory> {
    print_word(out, word)?;
    print_number(out, u64::from(session))
}

/// Prints a mark.
fn print_mark(out: &mut String, mark: &Mark) -> Result<(), NoMemory> {
    match mark {
        Mark::Connected { session, client } => {
            print_in_session(out, "connected", *session)?;
            print_number(out, u64::from(*client))
        }
        Mark::Fetched {
            session,
            page,
            upto,
        } => {
            print_in_session(out, "fetched", *session)?;
            print_number(out, u64::from(*page))?;
            print_number(out, *upto)
        }
        Mark::Granted { session, page } => {
            print_in_session(out, "granted", *session)?;
            print_number(out, u64::from(*page))
        }
        Mark::Took { session, place } => {
            print_in_session(out, "took", *session)?;
            print_number(out, *place)
        }
        Mark::Drew { session, ts } => {
            print_in_session(out, "drew", *session)?;
            out.push_str(" ")?;
            print_ts(out, *ts)
        }
        Mark::Forgot { tx } => print_with_ts(out, "forgot", *tx),
        Mark::Refused {
            session,
            request,
            refusal,
        } => print_refused(out, *session, request, *refusal.get()),
    }
}

/// Prints an item of a trace, by the entries of its history.
pub(crate) fn print_kept(
    out: &mut String,
    item: &KeptItem,
    history: &[Entry],
) -> Result<(), NoMemory> {
    match item {
        KeptItem::Entry { place } => match history.get(*place as usize) {
            Some(entry) => print_entry(out, *place, entry),
            None => Ok(()),
        },
        KeptItem::Mark { mark } => print_mark(out, mark),
    }
}
