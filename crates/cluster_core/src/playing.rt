//! A store that was found is opened and played on.

ghost use Rattle.cluster_core.specs.Committed.{committed_lines};
ghost use Rattle.cluster_core.specs.Counts.{parts_of};
ghost use Rattle.cluster_core.specs.Seated.{AreRight, IsFoundIn, run_found, AreLeft};
ghost use Rattle.repo_opening.specs.declared.unopened.Unopened.TheVariants.{Failed};
ghost use Rattle.std.specs.Prelude.{IfErr, IfOk, IsErr, List, length, vec_len, ℕ, ◌≡◌};
ghost use Rattle.store_opening.specs.Counts.{parts_in};
ghost use Rattle.store_opening.specs.Failing.{AreCalled, FailsAt};

use crate::cluster::Cluster;
use crate::finishing::Finished;
use crate::plan::Plan;
use cluster_port::Opening;
use disk_trait::Parts;
use outside::Gate;
use schedule::Event;
use std::alloc::Global;
use std::marker::Brand;
use store_opening::{ClusterFault, Found};
use thor_value::NoMemory;

/// After how many events the gate is told how many items have ended.
const TOLD: usize = 256;

/// Opens what was found with the clients of a plan, performs the events one after the other and then all that is left of the items,
/// and ends the run. The gate is told of the items that end.
pub fn play<P: Parts, G: Gate>(
    alloc: Global,
    found: Found<P>,
    plan: Plan,
    events: &[Event],
    gate: &G,
) -> Result<Finished<P>, ClusterFault<P>>
    ensures parts { IfOk result (λ finished. vec_len finished.parts ≡ parts_in found) }
    ensures err { IfErr result (λ fault. vec_len fault.parts ≡ parts_in found) }
    ensures failed { (given : List P) → AreCalled P.disks given found.places.items → IfErr result (λ fault. (r : ℕ) → fault.why ≡ Failed r → FailsAt P.disks given fault.parts.items r) }
    // What was recorded at each repository is right by what was found there, where nothing has still to be settled.
    ensures right { IfOk result (λ finished. IfOk finished.ran (λ ran. AreRight (run_found found plan.start) 0 ran.traces)) }
    ensures told { IfOk result (λ finished. IfOk finished.ran (λ ran. length ran.traces ≡ parts_in found)) }
    // What the disks of each say then is what was recorded there.
    ensures left { IfOk result (λ finished. IfOk finished.ran (λ ran. AreLeft P.disks (run_found found plan.start) 0 finished.parts.items ran.traces)) }
    // The lines are what these traces have as committed.
    ensures lines { IfOk result (λ finished. IfOk finished.ran (λ ran. ran.lines ≡ committed_lines ran.traces)) }
    ensures found { IfOk result (λ _. IsFoundIn P.disks found plan.start) }
{
    played::<P, Brand, G>(alloc, found, plan, events, gate)
}

/// The same, where what was found is the run that `O` has.
fn played<P: Parts, O: Opening, G: Gate>(
    alloc: Global,
    found: Found<P>,
    plan: Plan,
    events: &[Event],
    gate: &G,
) -> Result<Finished<P>, ClusterFault<P>>
    requires { O.run ≡ run_found found plan.start }
    ensures parts { IfOk result (λ finished. vec_len finished.parts ≡ parts_in found) }
    ensures err { IfErr result (λ fault. vec_len fault.parts ≡ parts_in found) }
    ensures failed { (given : List P) → AreCalled P.disks given found.places.items → IfErr result (λ fault. (r : ℕ) → fault.why ≡ Failed r → FailsAt P.disks given fault.parts.items r) }
    ensures right { IfOk result (λ finished. IfOk finished.ran (λ ran. AreRight O.run 0 ran.traces)) }
    ensures told { IfOk result (λ finished. IfOk finished.ran (λ ran. length ran.traces ≡ parts_in found)) }
    ensures left { IfOk result (λ finished. IfOk finished.ran (λ ran. AreLeft P.disks O.run 0 finished.parts.items ran.traces)) }
    ensures lines { IfOk result (λ finished. IfOk finished.ran (λ ran. ran.lines ≡ committed_lines ran.traces)) }
    ensures found { IfOk result (λ _. IsFoundIn P.disks found plan.start) }
{
    match Cluster::<P, O>::open(alloc, found, plan) {
        Ok(cluster) => Ok(run(cluster, events, gate)),
        Err(fault) => Err(fault),
    }
}

/// Performs the events one after the other, and then all that is left of the items, and ends the run.
fn run<P: Parts, O: Opening, G: Gate>(
    cluster: Cluster<P, O>,
    events: &[Event],
    gate: &G,
) -> Finished<P>
    ensures parts { vec_len result.parts ≡ parts_of cluster }
    ensures right { IfOk result.ran (λ ran. AreRight O.run 0 ran.traces) }
    ensures told { IfOk result.ran (λ ran. length ran.traces ≡ parts_of cluster) }
    ensures left { IfOk result.ran (λ ran. AreLeft P.disks O.run 0 result.parts.items ran.traces) }
    ensures lines { IfOk result.ran (λ ran. ran.lines ≡ committed_lines ran.traces) }
{
    let mut cluster = cluster;
    match perform(&mut cluster, events, gate) {
        Ok(()) => cluster.finish(),
        Err(NoMemory) => without_run(cluster.finish()),
    }
}

/// What is left of a run for which memory wasn't there: the parts.
pub fn without_run<P: Parts>(finished: Finished<P>) -> Finished<P>
    ensures parts { result.parts ≡ finished.parts }
    ensures ran { IsErr result.ran }
{
    let Finished { parts, ran } = finished;
    drop(ran);
    Finished {
        parts,
        ran: Err(NoMemory),
    }
}

/// Performs the events one after the other, and then all that is left of the items.
fn perform<P: Parts, O: Opening, G: Gate>(
    cluster: &mut Cluster<P, O>,
    events: &[Event],
    gate: &G,
) -> Result<(), NoMemory>
    ensures { parts_of cluster.new ≡ parts_of cluster.old }
{
    for stretch in events.chunks(TOLD) {
        perform_stretch(cluster, stretch, gate)?;
    }
    cluster.drain(gate)
}

/// Performs some events one after the other, and tells the gate how many items ended by them.
fn perform_stretch<P: Parts, O: Opening, G: Gate>(
    cluster: &mut Cluster<P, O>,
    events: &[Event],
    gate: &G,
) -> Result<(), NoMemory>
    ensures { parts_of cluster.new ≡ parts_of cluster.old }
{
    let before = cluster.ended_count();
    perform_each(cluster, events)?;
    gate.end_items(cluster.ended_count().saturating_sub(before));
    Ok(())
}

/// Performs events one after the other.
fn perform_each<P: Parts, O: Opening>(
    cluster: &mut Cluster<P, O>,
    events: &[Event],
) -> Result<(), NoMemory>
    ensures { parts_of cluster.new ≡ parts_of cluster.old }
{
    for event in events {
        cluster.event(*event)?;
    }
    Ok(())
}
