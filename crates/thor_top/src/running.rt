//! A run is made and told.

ghost use Rattle.cluster_threads.specs.Committed.{committed_lines};
ghost use Rattle.cluster_threads.specs.Histories.{AreHistories, AreHistoriesIf, EndsAs};
ghost use Rattle.repo_opening.specs.declared.unopened.Unopened.TheVariants.{Failed};
ghost use Rattle.std.specs.Prelude.{IfErr, IfOk, List, Ok, vec_len, ℕ, ◌≡◌};
ghost use Rattle.store_opening.specs.Failing.{AreCalled, FailsAt};
ghost use Rattle.top_reply.specs.declared.reply.Reply.TheVariants.{DiskFault};
ghost use Rattle.store_opening.specs.Counts.{HasParts, parts_in};
ghost use Rattle.thor_top.specs.Stages.{IsToldOf, IsToldWith};
ghost use Rattle.thor_value.specs.FiniteMap.{IsSorted};
ghost use Rattle.top_statement.specs.Telling.{TellsRunBy};

use crate::opening::FoundRun;
use crate::telling::replied;
use cluster_threads::{Cluster, Finished, Plan as Run, play, run_clients};
use disk_trait::Parts;
use outside::Gate;
use schedule::Event;
use script_parse::Script;
use std::alloc::Global;
use std::marker::Brand;
use std::sync::Wait;
use std::thread::Threads;
use store_opening::{ClusterFault, Found};
use top_statement::Answered;

/// What a run on threads goes by: what starts them, and the gate that their events pass and that is told how far the run is.
#[derive(Drop)]
pub struct Runtime<'a, R: Wait, G: Gate> {
    pub rt: &'a R,
    pub gate: &'a G,
}

/// How many items a script has.
fn item_count(script: &Script) -> usize {
    let mut count: usize = 0;
    for items in script.clients.as_slice() {
        count = count.saturating_add(items.len());
    }
    count
}

/// Makes a run, whose events are performed one after the other, and tells it. The gate is told how far it is.
pub(crate) fn run_in_turn<P: Parts, G: Gate>(
    alloc: Global,
    gate: &G,
    run: FoundRun<P>,
) -> Answered<P>
    requires { IsSorted run.expected.opened.store.objects }
    ensures reply { IfOk result.reply (IsToldOf run.expected) }
    ensures parts { vec_len result.parts ≡ parts_in run.found }
    ensures failed { (given : List P) (repo : ℕ) → AreCalled P.disks given run.found.places.items → result.reply ≡ Ok (DiskFault repo) → FailsAt P.disks given result.parts.items repo }
    ensures histories { (given : List P) → HasParts P.disks given run.found → AreHistoriesIf P.disks given result.traces }
    ensures reported { (given : List P) → HasParts P.disks given run.found → TellsRunBy result.reply → AreHistories P.disks given result.traces }
    ensures left { (given : List P) → HasParts P.disks given run.found → TellsRunBy result.reply → EndsAs P.disks given result.parts.items result.traces }
    ensures committed { TellsRunBy result.reply → IfOk result.reply (IsToldWith (committed_lines result.traces) run.expected) }
{
    let FoundRun {
        found,
        run,
        expected,
    } = run;
    gate.begin_run(item_count(&expected.script));
    let played = play(alloc, found, run, expected.script.events.as_slice(), gate);
    replied(alloc, gate, expected, played)
}

/// Makes a run that has a thread for each client, and tells it.
pub(crate) fn run_on_threads<R: Threads + Wait + Sync, P: Parts + Send, G: Gate + Sync>(
    alloc: Global,
    runtime: &Runtime<'_, R, G>,
    run: FoundRun<P>,
    mob: u32,
) -> Answered<P>
    requires sorted { IsSorted run.expected.opened.store.objects }
    ensures reply { IfOk result.reply (IsToldOf run.expected) }
    ensures parts { vec_len result.parts ≡ parts_in run.found }
    ensures failed { (given : List P) (repo : ℕ) → AreCalled P.disks given run.found.places.items → result.reply ≡ Ok (DiskFault repo) → FailsAt P.disks given result.parts.items repo }
    ensures committed { TellsRunBy result.reply → IfOk result.reply (IsToldWith (committed_lines result.traces) run.expected) }
{
    let FoundRun {
        found,
        run,
        expected,
    } = run;
    runtime.gate.begin_run(item_count(&expected.script));
    let events = expected.script.events.as_slice();
    let played = play_on_threads(alloc, runtime, found, run, events, mob);
    replied(alloc, runtime.gate, expected, played)
}

/// Opens what was found, and runs its clients, each in a thread of its own.
fn play_on_threads<R: Threads + Wait + Sync, P: Parts + Send, G: Gate + Sync>(
    alloc: Global,
    runtime: &Runtime<'_, R, G>,
    found: Found<P>,
    run: Run,
    events: &[Event],
    mob: u32,
) -> Result<Finished<P>, ClusterFault<P>>
    ensures parts { IfOk result (λ finished. vec_len finished.parts ≡ parts_in found) }
    ensures err { IfErr result (λ fault. vec_len fault.parts ≡ parts_in found) }
    ensures failed { (given : List P) → AreCalled P.disks given found.places.items → IfErr result (λ fault. (r : ℕ) → fault.why ≡ Failed r → FailsAt P.disks given fault.parts.items r) }
    ensures lines { IfOk result (λ finished. IfOk finished.ran (λ ran. ran.lines ≡ committed_lines ran.traces)) }
{
    match Cluster::<P, Brand>::open(alloc, found, run) {
        Ok(cluster) => Ok(run_clients(runtime.rt, alloc, cluster, events, mob, runtime.gate)),
        Err(fault) => Err(fault),
    }
}
