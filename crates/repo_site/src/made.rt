//! Calls that are made: each is a run of events, and does its work on the trace as a client is promised it.

ghost use Rattle.client_port.specs.Works.{AskWork, CommitWork, ConnectWork, DecideWork, DrawWork, FetchWork, FinishWork, ForgetWork, GrantWork, PrepareWork, ReceiveWork};
ghost use Rattle.law_repo_calls.specs.Vouching.{IsCounted};
ghost use Rattle.repo_core.specs.Behind.{has_prepared};
ghost use Rattle.repo_core.specs.Calls.{MayRequest};
ghost use Rattle.repo_site.specs.Testing.{IsTestedIf};
ghost use Rattle.repo_site.specs.Working.{AnyBase, HasRepos, RunsBy, WorksBy};
ghost use Rattle.std.specs.Prelude.{IsErrOf, OnOk, false, is_some, length, not, true, ℕ, ◌||◌, ◌≡◌, ◌≢◌, ◌≤◌};
ghost use Rattle.repo_core.specs.Shown.{faults_of};
ghost use Rattle.repo_durable.specs.Failing.{HasFailed};
ghost use Rattle.repo_refusals.specs.declared.refusal.Refusal.TheVariants.{Stopped as IsStopped};
ghost use Rattle.thor_value.specs.FiniteMap.{get};
ghost use Rattle.two_phase.specs.Contents.{keeps, open_at};

use disk_trait::Parts;
use log_entries::Request;
use repo_core::Repo;
use repo_refusals::Refusal;
use session_outbox::{Asked, Message, Verdict, Welcome};
use thor_value::Ts;

/// A client connects.
pub(crate) fn connect<P: Parts>(repo: &mut Repo<P>, client: u8) -> Result<Welcome, Refusal>
    requires up { repo.old.is_up ≡ true }
    requires counted { IsCounted repo.old }
    ensures runs { RunsBy AnyBase repo.old repo.new }
    ensures works { WorksBy AnyBase repo.old repo.new (ConnectWork client result) }
{
    repo.connect(client)
}

/// A client asks for a page.
pub(crate) fn fetch<P: Parts>(
    repo: &mut Repo<P>,
    session: u32,
    page: u32,
    upto: u64,
) -> Result<(), Refusal>
    requires up { repo.old.is_up ≡ true }
    requires within { upto ≤ length repo.old.trace.history }
    ensures runs { RunsBy AnyBase repo.old repo.new }
    ensures works { WorksBy AnyBase repo.old repo.new (FetchWork session page upto result) }
{
    repo.fetch(session, page, upto)
}

/// A client asks for a page of names.
pub(crate) fn grant<P: Parts>(repo: &mut Repo<P>, session: u32) -> Result<(), Refusal>
    requires up { repo.old.is_up ≡ true }
    ensures runs { RunsBy AnyBase repo.old repo.new }
    ensures works { WorksBy AnyBase repo.old repo.new (GrantWork session result) }
{
    repo.grant(session)
}

/// A client takes a message.
pub(crate) fn receive<P: Parts>(
    repo: &mut Repo<P>,
    session: u32,
) -> Result<Option<Message>, Refusal>
    requires up { repo.old.is_up ≡ true }
    ensures runs { RunsBy AnyBase repo.old repo.new }
    ensures works { WorksBy AnyBase repo.old repo.new (ReceiveWork session result) }
{
    repo.receive(session)
}

/// A client draws a timestamp.
pub(crate) fn draw<P: Parts>(repo: &mut Repo<P>, session: u32, floor: u64) -> Result<Ts, Refusal>
    requires up { repo.old.is_up ≡ true }
    ensures runs { RunsBy AnyBase repo.old repo.new }
    ensures works { WorksBy AnyBase repo.old repo.new (DrawWork session floor result) }
{
    repo.draw(session, floor)
}

/// A request is prepared that has passed all tests, or refused; so is one of a session that isn't live.
pub(crate) fn prepare<P: Parts>(
    repo: &mut Repo<P>,
    repos: u8,
    session: u32,
    request: Request,
) -> Result<u64, Refusal>
    requires up { repo.old.is_up ≡ true }
    requires may { MayRequest repo.old.held repo.old.memory request false }
    requires own { request.session ≡ session }
    requires counted { IsCounted repo.old }
    requires tested { IsTestedIf repo.old repos session request }
    ensures runs { RunsBy (HasRepos repos) repo.old repo.new }
    ensures works { WorksBy (HasRepos repos) repo.old repo.new (PrepareWork session request result) }
{
    repo.prepare(session, request)
}

/// A request with one participant commits that has passed all tests, or is refused; so is one of a session that isn't live.
pub(crate) fn commit_one<P: Parts>(
    repo: &mut Repo<P>,
    repos: u8,
    session: u32,
    request: Request,
) -> Result<u64, Refusal>
    requires up { repo.old.is_up ≡ true }
    requires may { MayRequest repo.old.held repo.old.memory request true }
    requires own { request.session ≡ session }
    requires counted { IsCounted repo.old }
    requires tested { IsTestedIf repo.old repos session request }
    ensures runs { RunsBy (HasRepos repos) repo.old repo.new }
    ensures works { WorksBy (HasRepos repos) repo.old repo.new (CommitWork session request result) }
{
    repo.commit_one(session, request)
}

/// A coordinator decides.
pub(crate) fn decide<P: Parts>(
    repo: &mut Repo<P>,
    session: u32,
    tx: Ts,
    commit: bool,
) -> Result<Verdict, Refusal>
    requires up { repo.old.is_up ≡ true }
    requires here { tx.repo ≡ repo.old.held.repo }
    requires settled { (has_prepared repo.old.held session tx || not (is_some (open_at repo.old.held.table tx))) ≡ true }
    requires counted { IsCounted repo.old }
    ensures runs { RunsBy AnyBase repo.old repo.new }
    ensures works { WorksBy AnyBase repo.old repo.new (DecideWork session tx commit result) }
{
    repo.decide(session, tx, commit)
}

/// A participant learns the verdict of another repository.
pub(crate) fn finish<P: Parts>(
    repo: &mut Repo<P>,
    verdict: &Verdict,
) -> Result<Option<u64>, Refusal>
    requires up { repo.old.is_up ≡ true }
    requires elsewhere { verdict.now.tx.repo ≢ repo.old.held.repo }
    requires counted { IsCounted repo.old }
    ensures runs { RunsBy AnyBase repo.old repo.new }
    ensures works { WorksBy AnyBase repo.old repo.new (FinishWork verdict.now.tx verdict.now.commit result) }
    ensures stopped { (n : ℕ) → IsErrOf result (IsStopped n) → HasFailed (faults_of repo.old) (faults_of repo.new) }
    ensures steady { OnOk result (repo.new.faults ≡ repo.old.faults) }
{
    repo.finish(verdict)
}

/// A coordinator forgets a decision.
pub(crate) fn forget<P: Parts>(repo: &mut Repo<P>, tx: Ts) -> Result<(), Refusal>
    requires up { repo.old.is_up ≡ true }
    requires kept { keeps (get repo.old.held.table.transactions tx) ≡ true }
    requires here { repo.old.opened_in ≤ tx.life }
    ensures runs { RunsBy AnyBase repo.old repo.new }
    ensures works { WorksBy AnyBase repo.old repo.new (ForgetWork tx result) }
{
    repo.forget(tx)
}

/// A coordinator is asked.
pub(crate) fn ask<P: Parts>(repo: &mut Repo<P>, tx: Ts) -> Result<Asked, Refusal>
    requires up { repo.old.is_up ≡ true }
    requires here { tx.repo ≡ repo.old.held.repo }
    ensures runs { RunsBy AnyBase repo.old repo.new }
    ensures works { WorksBy AnyBase repo.old repo.new (AskWork tx result) }
    ensures never { (n : ℕ) → IsErrOf result (IsStopped n) → ⊥ }
    ensures counts { repo.new.faults ≡ repo.old.faults }
{
    repo.ask(tx)
}
