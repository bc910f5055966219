//! The calls of a client on the repositories of a run. One that isn't there is taken as one that is down.

ghost use Rattle.client_port.specs.Works.{AskWork, CommitWork, ConnectWork, DecideWork, Does, DrawWork, FetchWork, FinishWork, ForgetWork, GrantWork, PrepareWork, ReceiveWork};
ghost use Rattle.cluster_port.specs.Lent.{AreInPlace, view_of};
ghost use Rattle.std.specs.Prelude.{IsErrOf, OnOk, true, vec_len, ℕ, ◌≡◌};
ghost use Rattle.cluster_port.specs.Counting.{FailedAt, HaveSameFaults};
ghost use Rattle.repo_refusals.specs.declared.refusal.Refusal.TheVariants.{Stopped as IsStopped};

use disk_trait::Parts;
use log_entries::Request;
use repo_refusals::Refusal;
use repo_site::{Opening, Site};
use session_outbox::{Asked, At, Message, Verdict, Welcome};
use thor_value::Ts;

/// Begins a session of the client at a repository.
pub fn connect<P: Parts, O: Opening>(
    sites: &mut Vec<Site<P, O>>,
    repo: u8,
    client: u8,
) -> Result<Welcome, Refusal>
    requires { AreInPlace sites.old.items }
    ensures placed { AreInPlace sites.new.items }
    ensures count { vec_len sites.new ≡ vec_len sites.old }
    ensures does { O.run.based ≡ true → (c : ℕ) → Does (view_of O.run c sites.old.items) (view_of O.run c sites.new.items) repo result (ConnectWork client result) }
{
    match sites.get_mut(usize::from(repo)) {
        Some(site) => site.connect(client),
        None => Err(Refusal::Down { repo }),
    }
}

/// Asks a repository for a page.
pub fn fetch<P: Parts, O: Opening>(
    sites: &mut Vec<Site<P, O>>,
    at: At,
    page: u32,
    upto: u64,
) -> Result<(), Refusal>
    requires { AreInPlace sites.old.items }
    ensures placed { AreInPlace sites.new.items }
    ensures count { vec_len sites.new ≡ vec_len sites.old }
    ensures does { O.run.based ≡ true → (c : ℕ) → Does (view_of O.run c sites.old.items) (view_of O.run c sites.new.items) at.repo result (FetchWork at.session page upto result) }
{
    match sites.get_mut(usize::from(at.repo)) {
        Some(site) => site.fetch(at.session, page, upto),
        None => Err(Refusal::Down { repo: at.repo }),
    }
}

/// Asks a repository for a page of names.
pub fn grant<P: Parts, O: Opening>(sites: &mut Vec<Site<P, O>>, at: At) -> Result<(), Refusal>
    requires { AreInPlace sites.old.items }
    ensures placed { AreInPlace sites.new.items }
    ensures count { vec_len sites.new ≡ vec_len sites.old }
    ensures does { O.run.based ≡ true → (c : ℕ) → Does (view_of O.run c sites.old.items) (view_of O.run c sites.new.items) at.repo result (GrantWork at.session result) }
{
    match sites.get_mut(usize::from(at.repo)) {
        Some(site) => site.grant(at.session),
        None => Err(Refusal::Down { repo: at.repo }),
    }
}

/// Takes the oldest message of a session.
pub fn receive<P: Parts, O: Opening>(
    sites: &mut Vec<Site<P, O>>,
    at: At,
) -> Result<Option<Message>, Refusal>
    requires { AreInPlace sites.old.items }
    ensures placed { AreInPlace sites.new.items }
    ensures count { vec_len sites.new ≡ vec_len sites.old }
    ensures does { O.run.based ≡ true → (c : ℕ) → Does (view_of O.run c sites.old.items) (view_of O.run c sites.new.items) at.repo result (ReceiveWork at.session result) }
{
    match sites.get_mut(usize::from(at.repo)) {
        Some(site) => site.receive(at.session),
        None => Err(Refusal::Down { repo: at.repo }),
    }
}

/// Draws a timestamp above the floor.
pub fn draw<P: Parts, O: Opening>(
    sites: &mut Vec<Site<P, O>>,
    at: At,
    floor: u64,
) -> Result<Ts, Refusal>
    requires { AreInPlace sites.old.items }
    ensures placed { AreInPlace sites.new.items }
    ensures count { vec_len sites.new ≡ vec_len sites.old }
    ensures does { O.run.based ≡ true → (c : ℕ) → Does (view_of O.run c sites.old.items) (view_of O.run c sites.new.items) at.repo result (DrawWork at.session floor result) }
{
    match sites.get_mut(usize::from(at.repo)) {
        Some(site) => site.draw(at.session, floor),
        None => Err(Refusal::Down { repo: at.repo }),
    }
}

/// Prepares a transaction at a repository.
pub fn prepare<P: Parts, O: Opening>(
    sites: &mut Vec<Site<P, O>>,
    at: At,
    request: Request,
) -> Result<u64, Refusal>
    requires { AreInPlace sites.old.items }
    ensures placed { AreInPlace sites.new.items }
    ensures count { vec_len sites.new ≡ vec_len sites.old }
    ensures does { O.run.based ≡ true → (c : ℕ) → Does (view_of O.run c sites.old.items) (view_of O.run c sites.new.items) at.repo result (PrepareWork at.session request result) }
{
    match sites.get_mut(usize::from(at.repo)) {
        Some(site) => site.prepare(at.session, request),
        None => {
            drop(request);
            Err(Refusal::Down { repo: at.repo })
        }
    }
}

/// Commits a transaction at its one participant.
pub fn commit_one<P: Parts, O: Opening>(
    sites: &mut Vec<Site<P, O>>,
    at: At,
    request: Request,
) -> Result<u64, Refusal>
    requires { AreInPlace sites.old.items }
    ensures placed { AreInPlace sites.new.items }
    ensures count { vec_len sites.new ≡ vec_len sites.old }
    ensures does { O.run.based ≡ true → (c : ℕ) → Does (view_of O.run c sites.old.items) (view_of O.run c sites.new.items) at.repo result (CommitWork at.session request result) }
{
    match sites.get_mut(usize::from(at.repo)) {
        Some(site) => site.commit_one(at.session, request),
        None => {
            drop(request);
            Err(Refusal::Down { repo: at.repo })
        }
    }
}

/// Decides a transaction at its coordinator.
pub fn decide<P: Parts, O: Opening>(
    sites: &mut Vec<Site<P, O>>,
    at: At,
    tx: Ts,
    commit: bool,
) -> Result<Verdict, Refusal>
    requires { AreInPlace sites.old.items }
    ensures placed { AreInPlace sites.new.items }
    ensures count { vec_len sites.new ≡ vec_len sites.old }
    ensures does { O.run.based ≡ true → (c : ℕ) → Does (view_of O.run c sites.old.items) (view_of O.run c sites.new.items) at.repo result (DecideWork at.session tx commit result) }
{
    match sites.get_mut(usize::from(at.repo)) {
        Some(site) => site.decide(at.session, tx, commit),
        None => Err(Refusal::Down { repo: at.repo }),
    }
}

/// Hands a verdict to a repository.
pub fn finish<P: Parts, O: Opening>(
    sites: &mut Vec<Site<P, O>>,
    repo: u8,
    verdict: &Verdict,
) -> Result<Option<u64>, Refusal>
    requires { AreInPlace sites.old.items }
    ensures placed { AreInPlace sites.new.items }
    ensures count { vec_len sites.new ≡ vec_len sites.old }
    ensures does { O.run.based ≡ true → (c : ℕ) → Does (view_of O.run c sites.old.items) (view_of O.run c sites.new.items) repo result (FinishWork verdict.now.tx verdict.now.commit result) }
    ensures stopped { (n : ℕ) → IsErrOf result (IsStopped n) → FailedAt repo sites.old.items sites.new.items }
    ensures steady { OnOk result (HaveSameFaults sites.old.items sites.new.items) }
{
    match sites.get_mut(usize::from(repo)) {
        Some(site) => site.finish(verdict),
        None => Err(Refusal::Down { repo }),
    }
}

/// Lets a coordinator forget a decision.
pub fn forget<P: Parts, O: Opening>(
    sites: &mut Vec<Site<P, O>>,
    repo: u8,
    tx: Ts,
) -> Result<(), Refusal>
    requires { AreInPlace sites.old.items }
    ensures placed { AreInPlace sites.new.items }
    ensures count { vec_len sites.new ≡ vec_len sites.old }
    ensures does { O.run.based ≡ true → (c : ℕ) → Does (view_of O.run c sites.old.items) (view_of O.run c sites.new.items) repo result (ForgetWork tx result) }
{
    match sites.get_mut(usize::from(repo)) {
        Some(site) => site.forget(tx),
        None => Err(Refusal::Down { repo }),
    }
}

/// Asks a coordinator for its verdict.
#[tactic(auto, using(crate::proofs::Counting::same_none))]
pub fn ask<P: Parts, O: Opening>(
    sites: &mut Vec<Site<P, O>>,
    repo: u8,
    tx: Ts,
) -> Result<Asked, Refusal>
    requires { AreInPlace sites.old.items }
    ensures placed { AreInPlace sites.new.items }
    ensures count { vec_len sites.new ≡ vec_len sites.old }
    ensures does { O.run.based ≡ true → (c : ℕ) → Does (view_of O.run c sites.old.items) (view_of O.run c sites.new.items) repo result (AskWork tx result) }
    ensures never { (n : ℕ) → IsErrOf result (IsStopped n) → ⊥ }
    ensures counts { HaveSameFaults sites.old.items sites.new.items }
{
    match sites.get_mut(usize::from(repo)) {
        Some(site) => site.ask(tx),
        None => Err(Refusal::Down { repo }),
    }
}
