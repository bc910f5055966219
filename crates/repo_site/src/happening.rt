//! Events that are no client's: each is a run of events of `law_repo_runs`, and growth for
//! each client.

ghost use Rattle.repo_refusals.specs.declared.refusal.Refusal.TheVariants.{NoMemory as IsNoMemory};
ghost use Rattle.repo_site.specs.Happening.{ComesBack, Flushes, GoesOn, Stops};
ghost use Rattle.repo_site.specs.Working.{AnyBase, GrowsBy, RunsBy};
ghost use Rattle.std.specs.Prelude.{IsErrOf, ◌⊎◌};

use disk_trait::Parts;
use mob_flusher::Flushed;
use repo_core::Repo;
use repo_refusals::Refusal;

/// A page is flushed.
pub(crate) fn flush<P: Parts>(repo: &mut Repo<P>) -> Result<Flushed, Refusal>
    ensures runs { RunsBy AnyBase repo.old repo.new }
    ensures grows { GrowsBy repo.old repo.new }
    ensures does { Flushes repo.old repo.new }
{
    repo.flush()
}

/// A checkpoint is made.
pub(crate) fn checkpoint<P: Parts>(repo: &mut Repo<P>) -> Result<(), Refusal>
    ensures runs { RunsBy AnyBase repo.old repo.new }
    ensures grows { GrowsBy repo.old repo.new }
{
    repo.checkpoint()
}

/// A stop is armed, or falls at once.
pub(crate) fn stop_after<P: Parts>(repo: &mut Repo<P>, calls: u32)
    ensures runs { RunsBy AnyBase repo.old repo.new }
    ensures grows { GrowsBy repo.old repo.new }
    ensures does { Stops calls repo.old repo.new }
{
    repo.stop_after(calls);
}

/// A stop that hasn't fallen is taken back.
pub(crate) fn disarm<P: Parts>(repo: &mut Repo<P>)
    ensures runs { RunsBy AnyBase repo.old repo.new }
    ensures grows { GrowsBy repo.old repo.new }
{
    repo.disarm();
}

/// It is restarted, and comes up or stays down.
#[tactic(auto, using(crate::proofs::Restarts::goes_on))]
pub(crate) fn restart<P: Parts>(repo: &mut Repo<P>, pick: u64) -> Result<(), Refusal>
    ensures runs { RunsBy AnyBase repo.old repo.new }
    ensures grows { GrowsBy repo.old repo.new }
    ensures does { GoesOn repo.old repo.new }
    ensures comes { IsErrOf result IsNoMemory ⊎ ComesBack repo.old repo.new }
{
    repo.restart(pick)
}
