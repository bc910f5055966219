//! What stands against a request.

ghost use Rattle.spec_history.specs.Requests.{has_written};
ghost use Rattle.spec_trace.specs.Session.{last_other};
ghost use Rattle.spec_trace.specs.Verdict.{stale_from};
ghost use Rattle.std.specs.List.{filter, fold};
ghost use Rattle.std.specs.Map.{keys_of};
ghost use Rattle.std.specs.Prelude.{IfOk, ◌≡◌};
ghost use Rattle.thor_value.specs.Names.{later_of};
ghost use Rattle.model_reading.specs.Against.{against, invalid_by, live_refusal, stale_at, stale_by};
ghost use Rattle.model_reading.specs.Opening.{base_of};
ghost use Rattle.model_reading.specs.Tables.{names_in};
ghost use Rattle.validation_queue.specs.Clashes.{first_some};
ghost use Rattle.repo_refusals.specs.Refusals.{bar, other_epoch, blocks, comes_earlier, comes_later, full, names_of, too_old};

use crate::bytes::spelled_bytes;
use crate::finding;
use crate::names::{Names, has_written, is_before, is_upgrade, later_of, names_of, set_of};
use crate::opening::Opening;
use crate::reading::{Commit, Reading};
use crate::session::Session;
use crate::state::State;
use crate::window::Window;
use base_reasons::Reason;
use log_entries::Request;
use repo_refusals::Refusal;
use std::alloc::Global;
use thor_value::{NoMemory, Oref, Ts};

/// How many transactions a window has room for.
const ROOM: u32 = 1_024;

impl Reading {
    /// What stands against a request of the session of this number, which was looked for: the first refusal that holds.
    pub fn against(
        &self,
        alloc: Global,
        opening: &Opening,
        number: u32,
        request: &Request,
    ) -> Result<Option<Refusal>, NoMemory>
        ensures { IfOk result (λ r. r ≡ against (base_of opening.now) self.now number request.now) }
    {
        let gone = Some(Refusal::Reason(Reason::Gone { session: number }));
        match &self.session {
            Some(session) => {
                if session.is_live() {
                    return self.refuse_live(alloc, opening, number, session, request);
                }
                Ok(gone)
            }
            None => Ok(gone),
        }
    }

    /// What stands against a request of a live session.
    fn refuse_live(
        &self,
        alloc: Global,
        opening: &Opening,
        number: u32,
        session: &Session,
        request: &Request,
    ) -> Result<Option<Refusal>, NoMemory>
        ensures { IfOk result (λ r. r ≡ live_refusal (base_of opening.now) self.now number session.now request.now) }
    {
        if let Some(refusal) = first_blocking(&self.window, request) {
            return Ok(Some(refusal));
        }
        if let Some(refusal) = behind(&self.state, request)? {
            return Ok(Some(refusal));
        }
        if let Some(refusal) = too_old(&self.window, request) {
            return Ok(Some(refusal));
        }
        if let Some(refusal) = stale(alloc, self.commits.as_slice(), number, session, request)? {
            return Ok(Some(refusal));
        }
        let names = names_of(alloc, request)?;
        if let Some(refusal) = first_earlier(&self.window, &names, request) {
            return Ok(Some(refusal));
        }
        if let Some(refusal) = first_later(&self.window, &names, request) {
            return Ok(Some(refusal));
        }
        full(alloc, opening, &self.window, request)
    }
}

fn first_blocking(window: &Window, request: &Request) -> Option<Refusal>
    ensures { result ≡ first_some (blocks request.now) window.now.members.pairs }
{
    for (tx, member) in window.members() {
        let found = finding::blocks(request, *tx, member);
        if found.is_some() {
            return found;
        }
    }
    None
}

/// Whether the request's client hasn't seen just the upgrades that are installed.
fn behind(state: &State, request: &Request) -> Result<Option<Refusal>, NoMemory>
    ensures { IfOk result (λ r. r ≡ other_epoch state.now request.now) }
{
    let n = state.epoch()?;
    if request.epoch == n {
        return Ok(None);
    }
    Ok(Some(Refusal::Reason(Reason::Epoch { n })))
}

/// The greatest of the threshold and the timestamps of all that is remembered.
fn greatest(window: &Window) -> Ts
    ensures { result ≡ fold later_of window.now.threshold (keys_of window.now.members.pairs) }
{
    let mut greatest = window.threshold();
    for tx in window.members().keys() {
        greatest = later_of(greatest, *tx);
    }
    greatest
}

/// The timestamp that a request has to be above.
fn bar(window: &Window, request: &Request) -> Ts
    ensures { result ≡ bar window.now request.now }
{
    if is_upgrade(request) {
        greatest(window)
    } else {
        window.threshold()
    }
}

fn too_old(window: &Window, request: &Request) -> Option<Refusal>
    ensures { result ≡ too_old window.now request.now }
{
    let threshold = bar(window, request);
    if is_before(threshold, request.tx) {
        return None;
    }
    Some(Refusal::Reason(Reason::TooOld { threshold }))
}

/// The place of the last of some commits by another session that wrote an object.
fn last_other(commits: &[Commit], number: u32, oref: Oref) -> Option<u64>
    ensures { result ≡ last_other number (filter (λ c. has_written c.1 oref) commits.now) }
{
    let mut last = None;
    for commit in commits {
        if has_written(&commit.1, oref) && commit.1.session != number {
            last = Some(commit.0);
        }
    }
    last
}

/// Where an object stands in the invalid set of a session.
pub(crate) fn invalid_at(
    commits: &[Commit],
    number: u32,
    session: &Session,
    oref: Oref,
) -> Option<u64>
    ensures { result ≡ invalid_by commits.now number session.now oref }
{
    let first = session.first_at(oref.page)?;
    if !session.is_live() {
        return None;
    }
    let last = last_other(commits, number, oref)?;
    if first <= last && session.acked() <= last {
        return Some(last);
    }
    None
}

/// Whether an object is stale for a request that knows the places below `upto`.
fn stale_at(
    commits: &[Commit],
    number: u32,
    session: &Session,
    upto: u64,
    oref: Oref,
) -> Option<Refusal>
    ensures { result ≡ stale_at commits.now number session.now upto oref }
{
    let place = invalid_at(commits, number, session, oref)?;
    if upto <= place {
        return Some(Refusal::Reason(Reason::Stale { oref, place }));
    }
    None
}

fn first_stale(
    commits: &[Commit],
    number: u32,
    session: &Session,
    upto: u64,
    names: &Names,
) -> Option<Refusal>
    ensures { result ≡ first_some (stale_at commits.now number session.now upto) (keys_of names.now.entries) }
{
    for name in names.keys() {
        let found = stale_at(commits, number, session, upto, *name);
        if found.is_some() {
            return found;
        }
    }
    None
}

fn stale(
    alloc: Global,
    commits: &[Commit],
    number: u32,
    session: &Session,
    request: &Request,
) -> Result<Option<Refusal>, NoMemory>
    ensures { IfOk result (λ r. r ≡ stale_by commits.now number session.now request.now) }
{
    let names = set_of(alloc, request.ros.as_slice())?;
    Ok(first_stale(commits, number, session, request.upto, &names))
}

fn first_earlier(window: &Window, names: &Names, request: &Request) -> Option<Refusal>
    requires { names_in names.now ≡ names_of request.now }
    ensures { result ≡ first_some (comes_earlier request.now) window.now.members.pairs }
{
    for (tx, member) in window.members() {
        let found = finding::comes_earlier(names, request, *tx, member);
        if found.is_some() {
            return found;
        }
    }
    None
}

fn first_later(window: &Window, names: &Names, request: &Request) -> Option<Refusal>
    requires { names_in names.now ≡ names_of request.now }
    ensures { result ≡ first_some (comes_later request.now) window.now.members.pairs }
{
    for (tx, member) in window.members() {
        let found = finding::comes_later(names, request, *tx, member);
        if found.is_some() {
            return found;
        }
    }
    None
}

/// What the limits have against a request.
fn full(
    alloc: Global,
    opening: &Opening,
    window: &Window,
    request: &Request,
) -> Result<Option<Refusal>, NoMemory>
    ensures { IfOk result (λ r. r ≡ full (base_of opening.now) window.now request.now) }
{
    if window.is_full() && window.first_decided().is_none() {
        return Ok(Some(Refusal::Reason(Reason::Full { limit: ROOM })));
    }
    let limit = opening.limit;
    if u64::from(limit) < spelled_bytes(alloc, request)? {
        return Ok(Some(Refusal::Reason(Reason::Full { limit })));
    }
    Ok(None)
}
