//! The calls.

ghost use Rattle.std.specs.Prelude.{◌≡◌, ◌≢◌, ◌≤◌, IfOk, false, length, true};
ghost use Rattle.disk_trait.specs.AllDisks.{AllSettled};
ghost use Rattle.disk_trait.specs.Fused.{fused_disks};
ghost use Rattle.repo_state.specs.Keeps.{Keeps};
ghost use Rattle.repo_state.specs.Said.{said};
ghost use Rattle.spec_history.specs.History.{Base};
ghost use Rattle.log_codec.specs.declared.state.State.{State as AState};
ghost use Rattle.repo_core.specs.Calls.{MayRequest};
ghost use Rattle.law_repo_calls.specs.Seen.{IsRun, SaysHistory, StandsRight};
ghost use Rattle.law_repo_calls.specs.Vouching.{IsBase, IsCounted, IsNewBase, IsSent, WasKept};
ghost use Rattle.repo_durable.specs.Taking.{AgreesWhere};
ghost use Rattle.commit_log.specs.Holds.{Holds};

use class_defs::Setup;
use disk_trait::{Fused, Parts};
use log_entries::Request;
use mob_flusher::Flushed;
use recovery::Recovered;
use repo_core::Repo;
use repo_durable::OpenFault;
use repo_refusals::Refusal;
use session_outbox::{Asked, Message, Verdict, Welcome};
use std::alloc::Global;
use thor_value::Ts;

/// Behind its opening a repository is right, where what was recovered says what the base says.
pub fn open<P: Parts>(
    alloc: Global,
    parts: P,
    recovered: Recovered,
) -> Result<Repo<P>, OpenFault<P>>
    requires holds { (s : AState) × Holds (P.disks parts) recovered.log s }
    requires said { Holds (P.disks parts) recovered.log (said recovered.state) }
    requires keeps { Keeps recovered.state }
    requires pages { AgreesWhere recovered.state.objects.pages }
    ensures { (b : Base) → IsBase b recovered.state → IfOk result (StandsRight b) }
{
    Repo::open(alloc, parts, recovered)
}

/// A new repository is right behind its formatting, with the base of a new store.
pub fn format<P: Parts>(
    alloc: Global,
    parts: P,
    repo: u8,
    repos: u8,
    setup: &Setup,
    mob: u32,
) -> Result<Repo<P>, OpenFault<P>>
    requires { AllSettled (P.disks parts) }
    ensures { (b : Base) → IsNewBase repo setup.now mob b → IfOk result (StandsRight b) }
{
    Repo::format(alloc, parts, repo, repos, setup, mob)
}

/// A client connects.
pub fn connect<P: Parts>(repo: &mut Repo<P>, client: u8) -> Result<Welcome, Refusal>
    ensures { (b : Base) → IsRun b repo.old repo.new }
{
    repo.connect(client)
}

/// A client asks for a page. It knows no place that isn't there.
pub fn fetch<P: Parts>(
    repo: &mut Repo<P>,
    session: u32,
    page: u32,
    upto: u64,
) -> Result<(), Refusal>
    ensures { (b : Base) → upto ≤ length repo.old.trace.history → IsRun b repo.old repo.new }
{
    repo.fetch(session, page, upto)
}

/// A client asks for names.
pub fn grant<P: Parts>(repo: &mut Repo<P>, session: u32) -> Result<(), Refusal>
    ensures { (b : Base) → IsRun b repo.old repo.new }
{
    repo.grant(session)
}

/// A client takes a message.
pub fn receive<P: Parts>(repo: &mut Repo<P>, session: u32) -> Result<Option<Message>, Refusal>
    ensures { (b : Base) → IsRun b repo.old repo.new }
{
    repo.receive(session)
}

/// A client draws a timestamp.
pub fn draw<P: Parts>(repo: &mut Repo<P>, session: u32, floor: u64) -> Result<Ts, Refusal>
    ensures { (b : Base) → IsRun b repo.old repo.new }
{
    repo.draw(session, floor)
}

/// A request is prepared, or refused. Its sender vouches for it.
pub fn prepare<P: Parts>(repo: &mut Repo<P>, session: u32, request: Request) -> Result<u64, Refusal>
    requires { MayRequest repo.old.held repo.old.memory request false }
    ensures { (b : Base) → StandsRight b repo.old → IsSent b repo.old session request → IsRun b repo.old repo.new }
{
    repo.prepare(session, request)
}

/// A request with one participant commits, or is refused. Its sender vouches for it.
pub fn commit_one<P: Parts>(
    repo: &mut Repo<P>,
    session: u32,
    request: Request,
) -> Result<u64, Refusal>
    requires { MayRequest repo.old.held repo.old.memory request true }
    ensures { (b : Base) → StandsRight b repo.old → IsSent b repo.old session request → IsRun b repo.old repo.new }
{
    repo.commit_one(session, request)
}

/// A coordinator decides: this repository is the one that the transaction's timestamp names.
pub fn decide<P: Parts>(
    repo: &mut Repo<P>,
    session: u32,
    tx: Ts,
    commit: bool,
) -> Result<Verdict, Refusal>
    ensures { (b : Base) → StandsRight b repo.old → tx.repo ≡ b.repo → IsCounted repo.old → IsRun b repo.old repo.new }
{
    repo.decide(session, tx, commit)
}

/// A participant learns the verdict of another repository.
pub fn finish<P: Parts>(repo: &mut Repo<P>, verdict: &Verdict) -> Result<Option<u64>, Refusal>
    ensures { (b : Base) → StandsRight b repo.old → verdict.now.tx.repo ≢ b.repo → IsCounted repo.old → IsRun b repo.old repo.new }
{
    repo.finish(verdict)
}

/// A coordinator forgets a decision that was made here in this run.
pub fn forget<P: Parts>(repo: &mut Repo<P>, tx: Ts) -> Result<(), Refusal>
    ensures { (b : Base) → WasKept b repo.old tx → IsRun b repo.old repo.new }
{
    repo.forget(tx)
}

/// A coordinator is asked.
pub fn ask<P: Parts>(repo: &mut Repo<P>, tx: Ts) -> Result<Asked, Refusal>
    ensures { (b : Base) → IsRun b repo.old repo.new }
{
    repo.ask(tx)
}

/// A page is flushed.
pub fn flush<P: Parts>(repo: &mut Repo<P>) -> Result<Flushed, Refusal>
    ensures { (b : Base) → IsRun b repo.old repo.new }
{
    repo.flush()
}

/// A checkpoint is made.
pub fn checkpoint<P: Parts>(repo: &mut Repo<P>) -> Result<(), Refusal>
    ensures { (b : Base) → StandsRight b repo.old → IsRun b repo.old repo.new }
{
    repo.checkpoint()
}

/// A stop is armed, or falls at once.
pub fn stop_after<P: Parts>(repo: &mut Repo<P>, calls: u32)
    ensures { (b : Base) → IsRun b repo.old repo.new }
{
    repo.stop_after(calls);
}

/// A stop that hasn't fallen is taken back.
pub fn disarm<P: Parts>(repo: &mut Repo<P>)
    ensures { (b : Base) → IsRun b repo.old repo.new }
{
    repo.disarm();
}

/// A repository is restarted, and comes up or stays down.
pub fn restart<P: Parts>(repo: &mut Repo<P>, pick: u64) -> Result<(), Refusal>
    ensures { (b : Base) → StandsRight b repo.old → IsRun b repo.old repo.new }
{
    repo.restart(pick)
}

/// Its parts. In between any two calls, up or down, each image that a crash of their disks may leave says what the history
/// says, or that with the entry that was being written.
#[tactic(auto, using(crate::proofs::Saying::says_history))]
pub fn parts<P: Parts>(repo: &Repo<P>) -> &Fused<P>
    ensures { (b : Base) → StandsRight b repo.now → repo.now.is_torn ≡ false → SaysHistory b (fused_disks P.disks result.now) repo.now }
{
    repo.parts()
}
