//! From whom a request comes, tested.

ghost use Rattle.cached_sets.specs.Meaning.{has_page};
ghost use Rattle.repo_site.specs.Testing.{ComesFrom};
ghost use Rattle.std.specs.List.{AllByRecursion};
ghost use Rattle.std.specs.Prelude.{IsTrue, Some, length, true, ◌<◌, ◌≡◌, ◌≤◌};
ghost use Rattle.thor_value.specs.FiniteMap.{get};

use disk_trait::Parts;
use log_entries::Request;
use repo_core::Repo;
use thor_value::{Obj, Oref};

/// Whether a request comes from the client of a session.
pub(crate) fn comes_from<P: Parts>(repo: &Repo<P>, session: u32, request: &Request) -> bool
    ensures { IsTrue result → ComesFrom repo.now session request.now }
{
    if request.tx.repo == repo.number() && request.tx.life != repo.life() {
        return false;
    }
    if !is_client(repo, session, request.who.client) || !is_there(repo, request.upto) {
        return false;
    }
    if !are_granted(repo.next_grant(), request.writes.as_slice()) {
        return false;
    }
    are_cached(repo, session, request.writes.as_slice())
}

/// Whether a session is live, and is this client's.
fn is_client<P: Parts>(repo: &Repo<P>, session: u32, client: u8) -> bool
    ensures { IsTrue result → get repo.now.memory.sessions.clients session ≡ Some client }
{
    match repo.client_of(session) {
        Some(own) => own == client,
        None => false,
    }
}

/// Whether a place is one of the history, or the next one.
pub(crate) fn is_there<P: Parts>(repo: &Repo<P>, place: u64) -> bool
    ensures { IsTrue result → place ≤ length repo.now.trace.history }
{
    place <= repo.history().len() as u64
}

/// Whether all that is written lies on pages below the one that is granted next.
fn are_granted(next: u32, writes: &[(Oref, Obj)]) -> bool
    ensures { IsTrue result → AllByRecursion (λ w. w.0.page < next) writes.now }
{
    for write in writes {
        if write.0.page >= next {
            return false;
        }
    }
    true
}

/// Whether all that is written lies on pages that a session's client may have.
fn are_cached<P: Parts>(repo: &Repo<P>, session: u32, writes: &[(Oref, Obj)]) -> bool
    ensures { IsTrue result → AllByRecursion (λ w. has_page repo.now.memory.sessions.sets session w.0.page ≡ true) writes.now }
{
    for write in writes {
        if !repo.has_page(session, write.0.page) {
            return false;
        }
    }
    true
}
