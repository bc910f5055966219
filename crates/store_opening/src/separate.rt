//! What is checked of each repository of a store by itself.

ghost use Rattle.std.specs.List.{list_all};
ghost use Rattle.std.specs.Prelude.{IfOk, IsTrue, false, map, ◌≡◌, ◌↔◌};
ghost use Rattle.store_opening.specs.Fitting.{HasCoordinators, HasOwnNames, IsBelow, has_coordinator, is_at_most, is_own, is_own_or_other, threshold_of};
ghost use Rattle.store_opening.specs.Joined.{AreKept, read_states, state_of};
ghost use Rattle.store_opening.specs.OpenedStore.{committing};
ghost use Rattle.store_opening.specs.Standing.{IsStanding, member_of};

use crate::joined::{committing, keeps};
use crate::standing::Stands;
use log_entries::Request;
use repo_opening::Read;
use std::alloc::Global;
use std::cmp::Ordering;
use thor_value::{NoMemory, Oref, Ts};

/// Whether a request has a coordinator in the store, and isn't of a transaction that this repository coordinates and decided to
/// commit.
fn has_coordinator(store: &[Read<'_>], one: &Stands, request: &Request) -> bool
    requires { IsStanding store.now one.now }
    ensures { result ≡ has_coordinator (read_states store.now) (member_of one.now) request.now }
{
    let tx = request.tx;
    if usize::from(tx.repo) >= store.len() {
        return false;
    }
    if tx.repo != one.repo {
        return true;
    }
    !keeps(one.read, tx)
}

/// Whether each prepared request has a coordinator in the store, and none is of a transaction that this
/// repository coordinates and decided to commit.
pub(crate) fn has_coordinators(store: &[Read<'_>], one: &Stands) -> Result<bool, NoMemory>
    requires { IsStanding store.now one.now }
    ensures { IfOk result (λ has. IsTrue has ↔ HasCoordinators (read_states store.now) (member_of one.now)) }
{
    let table = one.read.recovered.state.table();
    let mut after = None;
    for _ in 0..u64::MAX {
        let Some(request) = table.next_open(after) else {
            return Ok(true);
        };
        if !has_coordinator(store, one, request) {
            return Ok(false);
        }
        after = Some(request.tx);
    }
    Err(NoMemory)
}

/// Whether a timestamp isn't above a threshold.
fn is_at_most(threshold: Ts, tx: Ts) -> bool
    ensures { result ≡ is_at_most threshold tx }
{
    match threshold.cmp(&tx) {
        Ordering::Less => false,
        Ordering::Equal | Ordering::Greater => true,
    }
}

/// Whether no kept decision and no last transaction of a client is above the threshold of a repository.
pub(crate) fn is_below(store: &[Read<'_>], one: &Stands) -> Result<bool, NoMemory>
    requires { IsStanding store.now one.now }
    ensures { IfOk result (λ below. IsTrue below ↔ IsBelow (read_states store.now) (member_of one.now)) }
{
    let threshold = one.settled.threshold;
    let kept = has_decisions_below(store, one, threshold)?;
    if !kept {
        return Ok(false);
    }
    has_commits_below(store, one, threshold)
}

fn has_decisions_below(store: &[Read<'_>], one: &Stands, threshold: Ts) -> Result<bool, NoMemory>
    requires { IsStanding store.now one.now }
    ensures { IfOk result (λ below. below ≡ list_all (is_at_most threshold) (state_of one.now.read.now).kept) }
{
    let table = one.read.recovered.state.table();
    let mut after = None;
    for _ in 0..u64::MAX {
        let Some(tx) = table.next_kept(after) else {
            return Ok(true);
        };
        if !is_at_most(threshold, tx) {
            return Ok(false);
        }
        after = Some(tx);
    }
    Err(NoMemory)
}

fn has_commits_below(store: &[Read<'_>], one: &Stands, threshold: Ts) -> Result<bool, NoMemory>
    requires { IsStanding store.now one.now }
    ensures { IfOk result (λ below. below ≡ list_all (λ e. is_at_most threshold e.1) (state_of one.now.read.now).alone) }
{
    let table = one.read.recovered.state.table();
    let mut after = None;
    for _ in 0..u64::MAX {
        let Some((client, tx)) = table.next_alone(after) else {
            return Ok(true);
        };
        if !is_at_most(threshold, tx) {
            return Ok(false);
        }
        after = Some(client);
    }
    Err(NoMemory)
}

/// Whether a name is of a repository, on a page below the next one.
fn is_own(one: &Stands, oref: Oref) -> bool
    ensures { result ≡ is_own (member_of one.now) oref }
{
    if oref.repo != one.repo {
        return false;
    }
    oref.page < one.read.recovered.state.next_page()
}

/// Whether a name is of another repository, or on a page below the next one.
fn is_own_or_other(one: &Stands, oref: Oref) -> bool
    ensures { result ≡ is_own_or_other (member_of one.now) oref }
{
    if oref.repo != one.repo {
        return true;
    }
    oref.page < one.read.recovered.state.next_page()
}

/// Whether the name of each object is of its repository, on a page below the next one: on its pages, of which all repositories
/// have these names; in its buffer; and in what is prepared there and commits.
pub(crate) fn has_own_names(
    alloc: Global,
    store: &[Read<'_>],
    one: &Stands,
    names: &[Oref],
) -> Result<bool, NoMemory>
    requires kept { AreKept store.now }
    requires standing { IsStanding store.now one.now }
    ensures { IfOk result (λ own. IsTrue own ↔ HasOwnNames (read_states store.now) names.now (member_of one.now)) }
{
    if !has_own_pages(one, names) {
        return Ok(false);
    }
    if !has_own_buffer(one) {
        return Ok(false);
    }
    has_own_writes(alloc, store, one)
}

fn has_own_pages(one: &Stands, names: &[Oref]) -> bool
    ensures { result ≡ list_all (is_own_or_other (member_of one.now)) names.now }
{
    names.iter().all(|oref| is_own_or_other(one, *oref))
}

fn has_own_buffer(one: &Stands) -> bool
    ensures { result ≡ list_all (λ w. is_own (member_of one.now) w.0) (state_of one.now.read.now).mob }
{
    for (oref, _) in one.read.recovered.state.objects().mob().iter() {
        if !is_own(one, *oref) {
            return false;
        }
    }
    true
}

fn has_own_writes(alloc: Global, store: &[Read<'_>], one: &Stands) -> Result<bool, NoMemory>
    requires kept { AreKept store.now }
    requires standing { IsStanding store.now one.now }
    ensures { IfOk result (λ own. own ≡ list_all (λ q. list_all (λ w. is_own (member_of one.now) w.0) q.writes) (committing (read_states store.now) (state_of one.now.read.now))) }
{
    let requests = committing(alloc, store, one.read)?;
    Ok(write_own(one, requests.as_slice()))
}

fn write_own(one: &Stands, requests: &[&Request]) -> bool
    ensures { result ≡ list_all (λ q. list_all (λ w. is_own (member_of one.now) w.0) q.writes) (map (λ q. q.now) requests.now) }
{
    for request in requests {
        if !writes_own(one, request) {
            return false;
        }
    }
    true
}

fn writes_own(one: &Stands, request: &Request) -> bool
    ensures { result ≡ list_all (λ w. is_own (member_of one.now) w.0) request.now.writes }
{
    request
        .writes
        .as_slice()
        .iter()
        .all(|write| is_own(one, write.0))
}
