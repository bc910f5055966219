//! The answer to a plan, on one thread or on several, and to words.

ghost use Rattle.cluster_threads.specs.Committed.{committed_lines};
ghost use Rattle.cluster_threads.specs.Histories.{AreHistories, AreHistoriesIf, EndsAs};
ghost use Rattle.repo_opening.specs.Same.{AreSame};
ghost use Rattle.std.specs.Prelude.{IfOk, Ok, Some, [], vec_len, ℕ, ◌≡◌};
ghost use Rattle.store_opening.specs.Failing.{FailsAt};
ghost use Rattle.top_reply.specs.declared.reply.Reply.TheVariants.{DiskFault};
ghost use Rattle.store_opening.specs.Reading.{ReadAll};
ghost use Rattle.thor_top.specs.Stages.{IsInTurn};
ghost use Rattle.top_statement.specs.Kept.{RefusesBy, WritesNothing};
ghost use Rattle.top_statement.specs.Telling.{TellsRunBy};
ghost use Rattle.top_statement.specs.Top.{IsForOthers, IsHanded, IsNoPlan, IsPlan, Says, SaysLines, told_by};
ghost use Rattle.top_words.specs.Words.{plan_of};
ghost use Rattle.top_words.specs.declared.command.Command.TheVariants.{Audit, Check};
ghost use Rattle.top_words.specs.declared.command.Plan.{Plan};

use crate::beginning::begin;
use crate::running::{Runtime, run_in_turn, run_on_threads};
use disk_trait::Parts;
use outside::{Gate, Source};
use repo_trace::Traces;
use std::alloc::Global;
use std::sync::Wait;
use std::thread::Threads;
use thor_value::{NoMemory, Text};
use top_reply::Reply;
use top_statement::{Answered, untouched};
use top_words::{Command, Plan, WordsFault, read_words};

/// Answers a plan. A run performs its events one after the other, and the gate is told how far it is.
pub(crate) fn answer_in_turn<S: Source, P: Parts, G: Gate>(
    alloc: Global,
    gate: &G,
    plan: &Plan,
    source: &mut S,
    parts: Vec<P>,
) -> Answered<P>
    ensures reply { IfOk result.reply (Says (ReadAll P.disks parts.items) (IsHanded plan.now (vec_len parts)) (IsForOthers plan.now (vec_len parts)) (told_by S.left S.faults source.old) (told_by S.left S.faults source.new)) }
    ensures parts { vec_len result.parts ≡ vec_len parts }
    ensures failed { (repo : ℕ) → result.reply ≡ Ok (DiskFault repo) → FailsAt P.disks parts.items result.parts.items repo }
    ensures kept { WritesNothing plan.now.command result.reply → AreSame P.disks parts.items result.parts.items }
    ensures histories { AreHistoriesIf P.disks parts.items result.traces }
    ensures reported { TellsRunBy result.reply → AreHistories P.disks parts.items result.traces }
    ensures left { TellsRunBy result.reply → EndsAs P.disks parts.items result.parts.items result.traces }
    ensures committed { IfOk result.reply (SaysLines (committed_lines result.traces) (ReadAll P.disks parts.items) (IsHanded plan.now (vec_len parts)) (told_by S.left S.faults source.old) (told_by S.left S.faults source.new)) }
{
    match begin(alloc, plan, source, parts) {
        Ok(found_run) => run_in_turn(alloc, gate, found_run),
        Err(answered) => untold(alloc, answered),
    }
}

/// An answer where no run was made: nothing is told of repositories.
fn untold<P: Parts>(alloc: Global, answered: Answered<P>) -> Answered<P>
    ensures reply { result.reply ≡ answered.reply }
    ensures parts { result.parts ≡ answered.parts }
    ensures traces { result.traces ≡ [] }
{
    let Answered {
        reply,
        parts,
        traces,
    } = answered;
    drop(traces);
    Answered {
        reply,
        parts,
        traces: Traces::new(alloc),
    }
}

/// Answers a plan. A run has a thread for each client.
fn answer_on_threads<R: Threads + Wait + Sync, S: Source, P: Parts + Send, G: Gate + Sync>(
    alloc: Global,
    runtime: &Runtime<'_, R, G>,
    plan: &Plan,
    source: &mut S,
    parts: Vec<P>,
) -> Answered<P>
    ensures reply { IfOk result.reply (Says (ReadAll P.disks parts.items) (IsHanded plan.now (vec_len parts)) (IsForOthers plan.now (vec_len parts)) (told_by S.left S.faults source.old) (told_by S.left S.faults source.new)) }
    ensures parts { vec_len result.parts ≡ vec_len parts }
    ensures failed { (repo : ℕ) → result.reply ≡ Ok (DiskFault repo) → FailsAt P.disks parts.items result.parts.items repo }
    ensures kept { WritesNothing plan.now.command result.reply → AreSame P.disks parts.items result.parts.items }
    ensures committed { IfOk result.reply (SaysLines (committed_lines result.traces) (ReadAll P.disks parts.items) (IsHanded plan.now (vec_len parts)) (told_by S.left S.faults source.old) (told_by S.left S.faults source.new)) }
{
    match begin(alloc, plan, source, parts) {
        Ok(found_run) => run_on_threads(alloc, runtime, found_run, plan.mob),
        Err(answered) => answered,
    }
}

/// Answers a plan by its command.
fn answer_plan<R: Threads + Wait + Sync, S: Source, P: Parts + Send, G: Gate + Sync>(
    alloc: Global,
    runtime: &Runtime<'_, R, G>,
    plan: &Plan,
    source: &mut S,
    parts: Vec<P>,
) -> Answered<P>
    ensures reply { IfOk result.reply (Says (ReadAll P.disks parts.items) (IsHanded plan.now (vec_len parts)) (IsForOthers plan.now (vec_len parts)) (told_by S.left S.faults source.old) (told_by S.left S.faults source.new)) }
    ensures parts { vec_len result.parts ≡ vec_len parts }
    ensures failed { (repo : ℕ) → result.reply ≡ Ok (DiskFault repo) → FailsAt P.disks parts.items result.parts.items repo }
    ensures kept { WritesNothing plan.now.command result.reply → AreSame P.disks parts.items result.parts.items }
    ensures histories { IsInTurn plan.now.command → AreHistoriesIf P.disks parts.items result.traces }
    ensures reported { IsInTurn plan.now.command → TellsRunBy result.reply → AreHistories P.disks parts.items result.traces }
    ensures left { IsInTurn plan.now.command → TellsRunBy result.reply → EndsAs P.disks parts.items result.parts.items result.traces }
    ensures committed { IfOk result.reply (SaysLines (committed_lines result.traces) (ReadAll P.disks parts.items) (IsHanded plan.now (vec_len parts)) (told_by S.left S.faults source.old) (told_by S.left S.faults source.new)) }
{
    match plan.command {
        Command::Run => answer_on_threads(alloc, runtime, plan, source, parts),
        Command::Check | Command::Play | Command::Gen { n: _ } | Command::Audit => {
            answer_in_turn(alloc, runtime.gate, plan, source, parts)
        }
    }
}

/// Answers words.
pub(crate) fn answer<R: Threads + Wait + Sync, S: Source, P: Parts + Send, G: Gate + Sync>(
    alloc: Global,
    runtime: &Runtime<'_, R, G>,
    words: &[Text],
    source: &mut S,
    parts: Vec<P>,
) -> Answered<P>
    ensures reply { IfOk result.reply (Says (ReadAll P.disks parts.items) (IsPlan words.now (vec_len parts)) (IsNoPlan words.now (vec_len parts)) (told_by S.left S.faults source.old) (told_by S.left S.faults source.new)) }
    ensures parts { vec_len result.parts ≡ vec_len parts }
    ensures failed { (repo : ℕ) → result.reply ≡ Ok (DiskFault repo) → FailsAt P.disks parts.items result.parts.items repo }
    ensures kept { RefusesBy result.reply → AreSame P.disks parts.items result.parts.items }
    ensures checked { (plan : Plan) → plan_of words.now ≡ Some plan → plan.command ≡ Check → AreSame P.disks parts.items result.parts.items }
    ensures audited { (plan : Plan) → plan_of words.now ≡ Some plan → plan.command ≡ Audit → AreSame P.disks parts.items result.parts.items }
    ensures histories { (plan : Plan) → plan_of words.now ≡ Some plan → IsInTurn plan.command → AreHistoriesIf P.disks parts.items result.traces }
    ensures reported { (plan : Plan) → plan_of words.now ≡ Some plan → IsInTurn plan.command → TellsRunBy result.reply → AreHistories P.disks parts.items result.traces }
    ensures left { (plan : Plan) → plan_of words.now ≡ Some plan → IsInTurn plan.command → TellsRunBy result.reply → EndsAs P.disks parts.items result.parts.items result.traces }
    ensures committed { IfOk result.reply (SaysLines (committed_lines result.traces) (ReadAll P.disks parts.items) (IsPlan words.now (vec_len parts)) (told_by S.left S.faults source.old) (told_by S.left S.faults source.new)) }
{
    match read_words(alloc, words) {
        Ok(plan) => answer_plan(alloc, runtime, &plan, source, parts),
        Err(WordsFault::Words) => untouched(alloc, Ok(Reply::Words), parts),
        Err(WordsFault::NoMemory) => untouched(alloc, Err(NoMemory), parts),
    }
}
