//! What is replied of a run that was made.

ghost use Rattle.repo_opening.specs.declared.unopened.Unopened.TheVariants.{Failed};
ghost use Rattle.std.specs.Prelude.{IfErr, IfOk, IsErrAnd, IsOk, Ok, [], ℕ, ◌≡◌};
ghost use Rattle.thor_top.specs.Stages.{AreTracesOf, IsToldOf, IsToldWith, TracesOf, WasMade};
ghost use Rattle.top_judging.specs.Stages.{RepliesUnsettled};
ghost use Rattle.thor_value.specs.FiniteMap.{IsSorted};
ghost use Rattle.top_reply.specs.Reports.{IsReported};
ghost use Rattle.top_reply.specs.declared.reply.Reply.TheVariants.{DiskFault};
ghost use Rattle.top_statement.specs.Telling.{TellsRunBy};

use crate::expected::Expected;
use cluster_threads::{Finished, Ran};
use disk_trait::Parts;
use outside::Gate;
use repo_opening::Unopened;
use repo_trace::Traces;
use std::alloc::Global;
use std::mem;
use store_opening::ClusterFault;
use thor_value::NoMemory;
use top_judging::unsettled;
use top_reply::{Reply, Untold, report};
use top_statement::{Answered, unplayed};

/// What is replied of what was run, where it is as expected. Where its history didn't pass its check the gate is told.
fn reported<G: Gate>(
    alloc: Global,
    gate: &G,
    expected: &Expected,
    ran: Result<Ran, NoMemory>,
) -> (Result<Reply, NoMemory>, Traces)
    requires { IsSorted expected.now.opened.store.objects }
    ensures reply { IfOk result.0 (IsReported expected.now.running expected.now.form expected.now.opened.schemas expected.now.opened.store expected.now.script) }
    ensures traces { TracesOf ran result.1 }
    // A run is told where one was made.
    ensures ran { TellsRunBy result.0 → IsOk ran }
    // Its history has the lines of that one.
    ensures lines { IfOk ran (λ r. IfOk result.0 (IsToldWith r.lines expected.now)) }
{
    match ran {
        Ok(run) => replied_run(alloc, gate, expected, run),
        Err(NoMemory) => (Err(NoMemory), Traces::new(alloc)),
    }
}

/// What is replied of a run that was made, with its traces.
fn replied_run<G: Gate>(
    alloc: Global,
    gate: &G,
    expected: &Expected,
    ran: Ran,
) -> (Result<Reply, NoMemory>, Traces)
    requires { IsSorted expected.now.opened.store.objects }
    ensures reply { IfOk result.0 (IsReported expected.now.running expected.now.form expected.now.opened.schemas expected.now.opened.store expected.now.script) }
    ensures traces { result.1 ≡ ran.traces }
    ensures lines { IfOk result.0 (IsToldWith ran.lines expected.now) }
{
    let Ran {
        ends,
        lines,
        traces,
    } = ran;
    let told = report(
        alloc,
        expected.running,
        expected.form,
        &expected.opened.schemas,
        &expected.opened.store,
        &expected.script,
        lines,
        &ends,
    );
    mem::forget(ends);
    (reply_of(gate, told), traces)
}

/// What is replied of a run, which is what is told of it. The gate is told of one whose history didn't pass its check.
fn reply_of<G: Gate>(gate: &G, told: Result<Reply, Untold>) -> Result<Reply, NoMemory>
    ensures { IfOk result (λ reply. told ≡ Ok reply) }
{
    match told {
        Ok(reply) => Ok(reply),
        Err(Untold::Unsound) => {
            gate.find_unsound();
            Err(NoMemory)
        }
        Err(Untold::NoMemory) => Err(NoMemory),
    }
}

/// What is replied of a run, with the parts. The program ends behind it: the script, the store and the outcomes are left to
/// the system, not let go of piece by piece.
fn told<P: Parts, G: Gate>(
    alloc: Global,
    gate: &G,
    expected: Expected,
    finished: Finished<P>,
) -> Answered<P>
    requires { IsSorted expected.opened.store.objects }
    ensures reply { IfOk result.reply (IsReported expected.running expected.form expected.opened.schemas expected.opened.store expected.script) }
    ensures parts { result.parts ≡ finished.parts }
    ensures traces { TracesOf finished.ran result.traces }
    ensures ran { TellsRunBy result.reply → IsOk finished.ran }
    ensures lines { IfOk finished.ran (λ r. IfOk result.reply (IsToldWith r.lines expected)) }
{
    let Finished { parts, ran } = finished;
    let (reply, traces) = reported(alloc, gate, &expected, ran);
    mem::forget(expected);
    Answered {
        reply,
        parts,
        traces,
    }
}

/// Tells the gate of a store that wasn't opened since a disk gave other bytes than as it was read.
fn tell_changed<G: Gate>(gate: &G, why: Unopened) {
    if let Unopened::Damaged { .. } = why {
        gate.find_changed();
    }
}

/// What is replied where the store couldn't be opened, with the parts. The gate is told where a disk gave other bytes than as the
/// store was read.
fn unopened<P: Parts, G: Gate>(
    alloc: Global,
    gate: &G,
    expected: Expected,
    fault: ClusterFault<P>,
) -> Answered<P>
    ensures reply { IfOk result.reply RepliesUnsettled }
    ensures failed { (repo : ℕ) → result.reply ≡ Ok (DiskFault repo) → fault.why ≡ Failed repo }
    ensures parts { result.parts ≡ fault.parts }
    ensures traces { result.traces ≡ [] }
{
    let ClusterFault { parts, why } = fault;
    drop(expected);
    tell_changed(gate, why);
    unplayed(alloc, unsettled(why), parts)
}

/// What is replied where a run was asked for, with the parts. The gate is told of a run whose history didn't pass its check, and of a
/// disk that gave other bytes than as the store was read.
pub(crate) fn replied<P: Parts, G: Gate>(
    alloc: Global,
    gate: &G,
    expected: Expected,
    played: Result<Finished<P>, ClusterFault<P>>,
) -> Answered<P>
    requires { IsSorted expected.opened.store.objects }
    ensures reply { IfOk result.reply (IsToldOf expected) }
    ensures ok { IfOk played (λ finished. result.parts ≡ finished.parts) }
    ensures err { IfErr played (λ fault. result.parts ≡ fault.parts) }
    ensures traces { AreTracesOf played result.traces }
    // A run is told where one was made.
    ensures ran { TellsRunBy result.reply → WasMade played }
    // Its history has the lines of that one.
    ensures lines { IfOk played (λ finished. IfOk finished.ran (λ r. IfOk result.reply (IsToldWith r.lines expected))) }
    // It is of a disk where the store couldn't be opened for that.
    ensures failed { (repo : ℕ) → result.reply ≡ Ok (DiskFault repo) → IsErrAnd played (λ fault. fault.why ≡ Failed repo) }
{
    match played {
        Ok(finished) => told(alloc, gate, expected, finished),
        Err(fault) => unopened(alloc, gate, expected, fault),
    }
}
