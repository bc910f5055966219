ghost use Rattle.audit_check.specs.declared.disagreement.Disagreement.{Disagreement};
ghost use Rattle.cluster_threads.specs.Committed.{committed_lines};
ghost use Rattle.cluster_threads.specs.Histories.{AreHistories, AreHistoriesIf, EndsAs};
ghost use Rattle.outside.specs.Faults.{Rose};
ghost use Rattle.repo_opening.specs.Same.{AreSame};
ghost use Rattle.script_parse.specs.declared.refusal.Refusal.{Refusal};
ghost use Rattle.std.specs.Prelude.{Bool, IfOk, List, Ok, Some, vec_len, ℕ, ◌≡◌};
ghost use Rattle.store_opening.specs.Failing.{FailsAt};
ghost use Rattle.store_opening.specs.Reading.{ReadAll};
ghost use Rattle.thor_top.specs.Stages.{IsInTurn};
ghost use Rattle.top_statement.specs.Kept.{RefusesBy};
ghost use Rattle.top_statement.specs.Telling.{TellsRunBy};
ghost use Rattle.top_statement.specs.Top.{IsNoPlan, IsPlan, SaysAccepted, SaysDamaged, SaysDisagrees, SaysDisk, SaysLegal, SaysLimit, SaysLines, SaysNoReport, SaysRefused, SaysRun, SaysSource, SaysWords, told_by};
ghost use Rattle.top_statement.specs.Written.{Wrote};
ghost use Rattle.top_words.specs.Words.{plan_of};
ghost use Rattle.top_words.specs.declared.command.Command.TheVariants.{Audit, Check};
ghost use Rattle.top_words.specs.declared.command.Plan.{Plan};

use crate::answering::answer;
use crate::running::Runtime;
use disk_trait::Parts;
use outside::{Gate, Sink, Source};
use std::alloc::Global;
use std::sync::Wait;
use std::thread::Threads;
use thor_value::Text;
use top_reply::{Form, Reply, Status};
use top_statement::{Outcome, StoreParts, write_answer};

/// The program: reads a script from the source, does with it what the words ask for, on the parts of as many
/// repositories, and writes the reply to the sink.
///
/// `check` tells whether the script breaks a rule. `play` runs it, one event after the other, and `run` does with a
/// thread for each client; of a schedule it takes the restarts alone. `gen` runs the generated script of a number
/// without reading the source, and writes a summary. `audit` reads a script, one byte 30 and a report, and tells whether the report is
/// true of the script. The text that is written ends in a newline. The parts come back in every case. A check or an audit leaves
/// their disks as they were, and so does what refuses words, script or store.
pub fn thor<R: Threads + Wait + Sync, S: Source, K: Sink, P: Parts + Send, G: Gate + Sync>(
    rt: &R,
    alloc: Global,
    words: &[Text],
    source: &mut S,
    sink: &mut K,
    parts: StoreParts<P>,
    gate: &G,
) -> Outcome<P>
    // The report of one serial history of the script, by `play` or `run`.
    ensures report { (finished : Bool) (text : List ℕ) → result.reply ≡ Ok (Reply.Report finished text) → SaysRun (ReadAll P.disks parts.repositories.items) Form.Report (IsPlan words.now (vec_len parts.repositories)) (told_by S.left S.faults source.old) (told_by S.left S.faults source.new) finished text }
    // The summary of one of the generated script, by `gen`.
    ensures summary { (finished : Bool) (text : List ℕ) → result.reply ≡ Ok (Reply.Summary finished text) → SaysRun (ReadAll P.disks parts.repositories.items) Form.Summary (IsPlan words.now (vec_len parts.repositories)) (told_by S.left S.faults source.old) (told_by S.left S.faults source.new) finished text }
    // The script breaks no rule, by `check`.
    ensures ok { result.reply ≡ Ok Reply.Accepted → SaysAccepted (ReadAll P.disks parts.repositories.items) (IsPlan words.now (vec_len parts.repositories)) (told_by S.left S.faults source.old) (told_by S.left S.faults source.new) }
    // The bytes are no script, or the script is refused.
    ensures rule { (refusal : Refusal) → result.reply ≡ Ok (Reply.Refused refusal) → SaysRefused (ReadAll P.disks parts.repositories.items) (IsPlan words.now (vec_len parts.repositories)) (told_by S.left S.faults source.old) (told_by S.left S.faults source.new) refusal }
    // A limit is passed.
    ensures limit { (limit : ℕ) → result.reply ≡ Ok (Reply.Limit limit) → SaysLimit (ReadAll P.disks parts.repositories.items) (IsPlan words.now (vec_len parts.repositories)) (told_by S.left S.faults source.old) (told_by S.left S.faults source.new) limit }
    // A disk failed while the store was opened; or, where the disks tell what they have, they hold no store, and this is what is
    // wrong at that place.
    ensures disk { (repo : ℕ) → result.reply ≡ Ok (Reply.DiskFault repo) → SaysDisk (IsPlan words.now (vec_len parts.repositories)) (told_by S.left S.faults source.old) (told_by S.left S.faults source.new) repo }
    ensures damage { (repo disk place : ℕ) → result.reply ≡ Ok (Reply.Damaged repo disk place) → SaysDamaged (ReadAll P.disks parts.repositories.items) (IsPlan words.now (vec_len parts.repositories)) (told_by S.left S.faults source.old) (told_by S.left S.faults source.new) repo disk place }
    // One of that repository's disks failed: its count of faults rose between what was handed in and what comes back.
    ensures failed { (repo : ℕ) → result.reply ≡ Ok (Reply.DiskFault repo) → FailsAt P.disks parts.repositories.items result.parts.repositories.items repo }
    // The words are no plan.
    ensures words { result.reply ≡ Ok Reply.Words → SaysWords (IsNoPlan words.now (vec_len parts.repositories)) (told_by S.left S.faults source.old) (told_by S.left S.faults source.new) }
    // The report behind the script is true of it, by `audit`: it tells one serial history of the script's items, which is legal from
    // the store that the setup opens, and answers each item once and each client's in its order. Or this is its first line that isn't
    // so; or what stands there is no report.
    ensures legal { result.reply ≡ Ok Reply.Legal → SaysLegal (IsPlan words.now (vec_len parts.repositories)) (told_by S.left S.faults source.old) (told_by S.left S.faults source.new) }
    ensures disagrees { (at : Disagreement) → result.reply ≡ Ok (Reply.Disagrees at) → SaysDisagrees (IsPlan words.now (vec_len parts.repositories)) (told_by S.left S.faults source.old) (told_by S.left S.faults source.new) at }
    ensures no_report { (line : ℕ) → result.reply ≡ Ok (Reply.NoReport line) → SaysNoReport (IsPlan words.now (vec_len parts.repositories)) (told_by S.left S.faults source.old) (told_by S.left S.faults source.new) line }
    // The source failed, which it counted.
    ensures source { result.reply ≡ Ok Reply.SourceFault → SaysSource (IsPlan words.now (vec_len parts.repositories)) (told_by S.left S.faults source.old) (told_by S.left S.faults source.new) }
    // The sink took the text of the reply, and the status is the reply's; or a front of it, and the sink failed, which it
    // counted. Where memory ran out it took nothing.
    ensures wrote { Wrote result.reply (K.taken sink.old) (K.taken sink.new) (K.faults sink.old) (K.faults sink.new) result.status }
    ensures sink_fault { result.status ≡ Status.SinkFault → Rose (K.faults sink.old) (K.faults sink.new) }
    ensures nothing { result.status ≡ Status.NoMemory → K.taken sink.new ≡ K.taken sink.old }
    // No part is lost.
    ensures parts { vec_len result.parts.repositories ≡ vec_len parts.repositories }
    // Where something is refused, and after any check or audit, the disks have what they had.
    ensures refused { RefusesBy result.reply → AreSame P.disks parts.repositories.items result.parts.repositories.items }
    ensures checked { (plan : Plan) → plan_of words.now ≡ Some plan → plan.command ≡ Check → AreSame P.disks parts.repositories.items result.parts.repositories.items }
    ensures audited { (plan : Plan) → plan_of words.now ≡ Some plan → plan.command ≡ Audit → AreSame P.disks parts.repositories.items result.parts.repositories.items }
    // Each repository's history is sound by the one with which it began, and each item of its trace is exact, where the run is made on one
    // thread and nothing had still to be settled.
    ensures histories { (plan : Plan) → plan_of words.now ≡ Some plan → IsInTurn plan.command → AreHistoriesIf P.disks parts.repositories.items result.traces }
    // Where a run is told that was made on one thread, each repository has such a history.
    ensures reported { (plan : Plan) → plan_of words.now ≡ Some plan → IsInTurn plan.command → TellsRunBy result.reply → AreHistories P.disks parts.repositories.items result.traces }
    // What each part's disks say then is what was recorded there: each image that a crash may leave of them says what the history says,
    // but for the objects, or that with one entry that may come next.
    ensures left { (plan : Plan) → plan_of words.now ≡ Some plan → IsInTurn plan.command → TellsRunBy result.reply → EndsAs P.disks parts.repositories.items result.parts.repositories.items result.traces }
    // The history that is told of a run is what the repositories have committed, by their traces.
    ensures committed { IfOk result.reply (SaysLines (committed_lines result.traces) (ReadAll P.disks parts.repositories.items) (IsPlan words.now (vec_len parts.repositories)) (told_by S.left S.faults source.old) (told_by S.left S.faults source.new)) }
{
    let runtime = Runtime { rt, gate };
    let StoreParts { repositories } = parts;
    let answered = answer(alloc, &runtime, words, source, repositories);
    write_answer(alloc, sink, answered)
}
