//! Calls, tested before they are made.

ghost use Rattle.law_repo_calls.specs.Vouching.{IsCounted};
ghost use Rattle.repo_core.specs.Behind.{has_prepared};
ghost use Rattle.repo_site.specs.Testing.{IsTested, IsTestedIf};
ghost use Rattle.std.specs.Prelude.{IsTrue, is_some, not, true, ◌||◌, ◌≡◌, ◌≢◌, ◌≤◌};
ghost use Rattle.thor_value.specs.FiniteMap.{get};
ghost use Rattle.two_phase.specs.Contents.{keeps, open_at};

use crate::participants::{is_bare_upgrade, take_part};
use crate::sessions::comes_from;
use crate::spoken::speaks_of;
use disk_trait::Parts;
use log_entries::Request;
use repo_core::Repo;
use thor_value::Ts;

/// Whether a request of a session passes all tests at a repository, of so many.
fn is_tested<P: Parts>(repo: &Repo<P>, repos: u8, session: u32, request: &Request) -> bool
    ensures { IsTrue result → IsTested repo.now repos session request.now }
{
    if !take_part(repo.number(), repos, request) || !speaks_of(repo.number(), request) {
        return false;
    }
    if !is_bare_upgrade(repo.number(), repos, request) {
        return false;
    }
    comes_from(repo, session, request)
}

/// Whether a request of a session passes all tests at a repository, of so many, or the session isn't live.
pub(crate) fn passes<P: Parts>(repo: &Repo<P>, repos: u8, session: u32, request: &Request) -> bool
    ensures { IsTrue result → IsTestedIf repo.now repos session request.now }
{
    match repo.client_of(session) {
        Some(_) => is_tested(repo, repos, session, request),
        None => true,
    }
}

/// Whether the number of the next upgrade is one of 32 bits.
#[tactic(auto, using(crate::proofs::Counting::counted))]
pub(crate) fn is_counted<P: Parts>(repo: &Repo<P>) -> bool
    ensures { IsTrue result → IsCounted repo.now }
{
    repo.epoch() < u32::MAX
}

/// Whether a repository coordinates a transaction.
pub(crate) fn is_here<P: Parts>(repo: &Repo<P>, tx: Ts) -> bool
    ensures { IsTrue result → tx.repo ≡ repo.now.held.repo }
{
    tx.repo == repo.number()
}

/// Whether a session may decide a transaction at a repository: that coordinates it, and what is undecided there the session has
/// prepared.
pub(crate) fn may_decide<P: Parts>(repo: &Repo<P>, session: u32, tx: Ts) -> bool
    ensures here { IsTrue result → tx.repo ≡ repo.now.held.repo }
    ensures settled { IsTrue result → (has_prepared repo.now.held session tx || not (is_some (open_at repo.now.held.table tx))) ≡ true }
    ensures counted { IsTrue result → IsCounted repo.now }
{
    if !is_here(repo, tx) || !is_counted(repo) {
        return false;
    }
    repo.has_prepared(session, tx) || !repo.is_open(tx)
}

/// Whether a repository may learn the verdict on a transaction: another one coordinates it.
pub(crate) fn may_finish<P: Parts>(repo: &Repo<P>, tx: Ts) -> bool
    ensures elsewhere { IsTrue result → tx.repo ≢ repo.now.held.repo }
    ensures counted { IsTrue result → IsCounted repo.now }
{
    tx.repo != repo.number() && is_counted(repo)
}

/// Whether a repository may forget the decision on a transaction: it was made in this run, and is kept.
pub(crate) fn may_forget<P: Parts>(repo: &Repo<P>, tx: Ts) -> bool
    ensures kept { IsTrue result → keeps (get repo.now.held.table.transactions tx) ≡ true }
    ensures here { IsTrue result → repo.now.opened_in ≤ tx.life }
{
    repo.opened_in() <= tx.life && repo.keeps(tx)
}
