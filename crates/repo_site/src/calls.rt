//! Calls, tested before they are made. One that fails its test takes the repository down: no rightful client makes it.

ghost use Rattle.client_port.specs.Works.{AskWork, CommitWork, ConnectWork, DecideWork, FetchWork, FinishWork, ForgetWork, PrepareWork};
ghost use Rattle.law_repo_calls.specs.Vouching.{IsCounted};
ghost use Rattle.repo_core.specs.Calls.{MayRequest};
ghost use Rattle.repo_site.specs.Working.{AnyBase, Halts, HasRepos, RunsBy, WorksBy};
ghost use Rattle.std.specs.Prelude.{IsErrOf, IsTrue, OnOk, true, ℕ, ◌≡◌};
ghost use Rattle.repo_core.specs.Shown.{faults_of};
ghost use Rattle.repo_durable.specs.Failing.{HasFailed};
ghost use Rattle.repo_refusals.specs.declared.refusal.Refusal.TheVariants.{Stopped as IsStopped};

use crate::made;
use crate::sessions::is_there;
use crate::testing::{is_counted, is_here, may_decide, may_finish, may_forget, passes};
use disk_trait::Parts;
use log_entries::Request;
use repo_core::Repo;
use repo_refusals::Refusal;
use session_outbox::{Asked, Verdict, Welcome};
use thor_value::Ts;

/// It goes down, and nothing is done.
fn fail<P: Parts>(repo: &mut Repo<P>)
    requires up { repo.old.is_up ≡ true }
    ensures runs { RunsBy AnyBase repo.old repo.new }
    ensures halts { Halts repo.old repo.new }
    ensures counts { repo.new.faults ≡ repo.old.faults }
{
    repo.stop_after(0);
}

/// A client connects. The next upgrade can be counted.
#[tactic(auto, using(crate::proofs::Failing::connect_fails))]
pub(crate) fn connect<P: Parts>(repo: &mut Repo<P>, client: u8) -> Result<Welcome, Refusal>
    requires up { repo.old.is_up ≡ true }
    ensures runs { RunsBy AnyBase repo.old repo.new }
    ensures works { WorksBy AnyBase repo.old repo.new (ConnectWork client result) }
{
    if !is_counted(repo) {
        fail(repo);
        return Err(Refusal::NoMemory);
    }
    made::connect(repo, client)
}

/// A client asks for a page. It knows no place that isn't there.
#[tactic(auto, using(crate::proofs::Failing::fetch_fails))]
pub(crate) fn fetch<P: Parts>(
    repo: &mut Repo<P>,
    session: u32,
    page: u32,
    upto: u64,
) -> Result<(), Refusal>
    requires up { repo.old.is_up ≡ true }
    ensures runs { RunsBy AnyBase repo.old repo.new }
    ensures works { WorksBy AnyBase repo.old repo.new (FetchWork session page upto result) }
{
    if !is_there(repo, upto) {
        fail(repo);
        return Err(Refusal::NoMemory);
    }
    made::fetch(repo, session, page, upto)
}

/// A coordinator decides.
#[tactic(auto, using(crate::proofs::Failing::decide_fails))]
pub(crate) fn decide<P: Parts>(
    repo: &mut Repo<P>,
    session: u32,
    tx: Ts,
    commit: bool,
) -> Result<Verdict, Refusal>
    requires up { repo.old.is_up ≡ true }
    ensures runs { RunsBy AnyBase repo.old repo.new }
    ensures works { WorksBy AnyBase repo.old repo.new (DecideWork session tx commit result) }
{
    if !may_decide(repo, session, tx) {
        fail(repo);
        return Err(Refusal::NoMemory);
    }
    made::decide(repo, session, tx, commit)
}

/// A repository is handed a verdict. Where nothing of the transaction is undecided there, nothing is done: so may the coordinator be,
/// by a client whose request the transaction refused.
#[tactic(auto, using(crate::proofs::Idle::idle_runs, crate::proofs::Idle::finish_idle))]
pub(crate) fn finish<P: Parts>(
    repo: &mut Repo<P>,
    verdict: &Verdict,
) -> Result<Option<u64>, Refusal>
    requires up { repo.old.is_up ≡ true }
    ensures runs { RunsBy AnyBase repo.old repo.new }
    ensures works { WorksBy AnyBase repo.old repo.new (FinishWork verdict.now.tx verdict.now.commit result) }
    ensures stopped { (n : ℕ) → IsErrOf result (IsStopped n) → HasFailed (faults_of repo.old) (faults_of repo.new) }
    ensures steady { OnOk result (repo.new.faults ≡ repo.old.faults) }
{
    if !repo.is_open(verdict.tx()) {
        return Ok(None);
    }
    learn(repo, verdict)
}

/// A participant learns the verdict of another repository.
#[tactic(auto, using(crate::proofs::Failing::finish_fails))]
fn learn<P: Parts>(repo: &mut Repo<P>, verdict: &Verdict) -> Result<Option<u64>, Refusal>
    requires up { repo.old.is_up ≡ true }
    ensures runs { RunsBy AnyBase repo.old repo.new }
    ensures works { WorksBy AnyBase repo.old repo.new (FinishWork verdict.now.tx verdict.now.commit result) }
    ensures stopped { (n : ℕ) → IsErrOf result (IsStopped n) → HasFailed (faults_of repo.old) (faults_of repo.new) }
    ensures steady { OnOk result (repo.new.faults ≡ repo.old.faults) }
{
    if !may_finish(repo, verdict.tx()) {
        fail(repo);
        return Err(Refusal::NoMemory);
    }
    made::finish(repo, verdict)
}

/// A coordinator forgets a decision that it keeps.
#[tactic(auto, using(crate::proofs::Failing::forget_fails))]
pub(crate) fn forget<P: Parts>(repo: &mut Repo<P>, tx: Ts) -> Result<(), Refusal>
    requires up { repo.old.is_up ≡ true }
    ensures runs { RunsBy AnyBase repo.old repo.new }
    ensures works { WorksBy AnyBase repo.old repo.new (ForgetWork tx result) }
{
    if !may_forget(repo, tx) {
        fail(repo);
        return Err(Refusal::NoMemory);
    }
    made::forget(repo, tx)
}

/// A coordinator is asked.
#[tactic(auto, using(crate::proofs::Failing::ask_fails))]
pub(crate) fn ask<P: Parts>(repo: &mut Repo<P>, tx: Ts) -> Result<Asked, Refusal>
    requires up { repo.old.is_up ≡ true }
    ensures runs { RunsBy AnyBase repo.old repo.new }
    ensures works { WorksBy AnyBase repo.old repo.new (AskWork tx result) }
    ensures never { (n : ℕ) → IsErrOf result (IsStopped n) → ⊥ }
    ensures counts { repo.new.faults ≡ repo.old.faults }
{
    if !is_here(repo, tx) {
        fail(repo);
        return Err(Refusal::NoMemory);
    }
    made::ask(repo, tx)
}

/// A request is prepared at one of so many repositories, or refused.
#[tactic(auto, using(crate::proofs::Failing::any_runs, crate::proofs::Failing::prepare_fails))]
pub(crate) fn prepare<P: Parts>(
    repo: &mut Repo<P>,
    repos: u8,
    session: u32,
    request: Request,
) -> Result<u64, Refusal>
    requires up { repo.old.is_up ≡ true }
    ensures runs { RunsBy (HasRepos repos) repo.old repo.new }
    ensures works { WorksBy (HasRepos repos) repo.old repo.new (PrepareWork session request result) }
{
    if !may_come(repo, session, &request, false) || !passes(repo, repos, session, &request) {
        drop(request);
        fail(repo);
        return Err(Refusal::NoMemory);
    }
    made::prepare(repo, repos, session, request)
}

/// A request with one participant commits at one of so many repositories, or refused.
#[tactic(auto, using(crate::proofs::Failing::any_runs, crate::proofs::Failing::commit_fails))]
pub(crate) fn commit_one<P: Parts>(
    repo: &mut Repo<P>,
    repos: u8,
    session: u32,
    request: Request,
) -> Result<u64, Refusal>
    requires up { repo.old.is_up ≡ true }
    ensures runs { RunsBy (HasRepos repos) repo.old repo.new }
    ensures works { WorksBy (HasRepos repos) repo.old repo.new (CommitWork session request result) }
{
    if !may_come(repo, session, &request, true) || !passes(repo, repos, session, &request) {
        drop(request);
        fail(repo);
        return Err(Refusal::NoMemory);
    }
    made::commit_one(repo, repos, session, request)
}

/// Whether a verdict can be found on a request: it has its form and the call's session, and the next upgrade can be counted.
fn may_come<P: Parts>(repo: &Repo<P>, session: u32, request: &Request, alone: bool) -> bool
    ensures may { IsTrue result → MayRequest repo.now.held repo.now.memory request.now alone }
    ensures own { IsTrue result → request.now.session ≡ session }
    ensures counted { IsTrue result → IsCounted repo.now }
{
    if request.session != session || !is_counted(repo) {
        return false;
    }
    repo.may_request(request, alone)
}
