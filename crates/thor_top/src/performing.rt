//! A plan is performed, and the reply written.

ghost use Rattle.cluster_threads.specs.Committed.{committed_lines};
ghost use Rattle.cluster_threads.specs.Histories.{AreHistories, AreHistoriesIf, EndsAs};
ghost use Rattle.outside.specs.Faults.{Rose};
ghost use Rattle.repo_opening.specs.Same.{AreSame};
ghost use Rattle.std.specs.Prelude.{IfOk, Ok, vec_len, ℕ, ◌≡◌};
ghost use Rattle.store_opening.specs.Failing.{FailsAt};
ghost use Rattle.top_reply.specs.declared.reply.Reply.TheVariants.{DiskFault};
ghost use Rattle.store_opening.specs.Reading.{ReadAll};
ghost use Rattle.thor_top.specs.Stages.{IsInTurn};
ghost use Rattle.top_statement.specs.Kept.{RefusesBy};
ghost use Rattle.top_statement.specs.Telling.{TellsRunBy};
ghost use Rattle.top_statement.specs.Top.{IsForOthers, IsHanded, Says, SaysLines, told_by};
ghost use Rattle.top_statement.specs.Written.{Wrote};
ghost use Rattle.top_words.specs.declared.command.Command.TheVariants.{Audit, Check};

use crate::answering::answer_in_turn;
use disk_trait::Parts;
use outside::{OpenGate, Sink, Source};
use std::alloc::Global;
use top_reply::Status;
use top_statement::{Outcome, StoreParts, write_answer};
use top_words::Plan;

/// Performs a plan whose command isn't `run`: what `thor` does with the words of this plan. It starts no
/// thread, waits for nothing, and returns.
///
/// The script is read from the source, or made where the command is `gen`, and the reply is written to the sink. The
/// parts are those of the plan's repositories, in their order; for another number of them the reply is that of wrong
/// words. They come back in every case. A check leaves their disks as they were, and so does what refuses script or
/// store.
pub fn perform<S: Source, K: Sink, P: Parts>(
    alloc: Global,
    plan: Plan,
    source: &mut S,
    sink: &mut K,
    parts: StoreParts<P>,
) -> Outcome<P>
    requires { IsInTurn plan.command }
    // What is true of the reply, by its payload.
    ensures says { IfOk result.reply (Says (ReadAll P.disks parts.repositories.items) (IsHanded plan (vec_len parts.repositories)) (IsForOthers plan (vec_len parts.repositories)) (told_by S.left S.faults source.old) (told_by S.left S.faults source.new)) }
    // What the sink took of it, and the status.
    ensures wrote { Wrote result.reply (K.taken sink.old) (K.taken sink.new) (K.faults sink.old) (K.faults sink.new) result.status }
    ensures sink_fault { result.status ≡ Status.SinkFault → Rose (K.faults sink.old) (K.faults sink.new) }
    ensures nothing { result.status ≡ Status.NoMemory → K.taken sink.new ≡ K.taken sink.old }
    // Where it is of a disk, the count of faults of one of that repository's disks rose.
    ensures failed { (repo : ℕ) → result.reply ≡ Ok (DiskFault repo) → FailsAt P.disks parts.repositories.items result.parts.repositories.items repo }
    // No part is lost.
    ensures parts { vec_len result.parts.repositories ≡ vec_len parts.repositories }
    // Where something is refused, and after a check or an audit, the disks have what they had.
    ensures refused { RefusesBy result.reply → AreSame P.disks parts.repositories.items result.parts.repositories.items }
    ensures checked { plan.command ≡ Check → AreSame P.disks parts.repositories.items result.parts.repositories.items }
    ensures audited { plan.command ≡ Audit → AreSame P.disks parts.repositories.items result.parts.repositories.items }
    // Each repository's history is sound by the one with which it began, and each item of its trace is exact, where nothing had still to
    // be settled.
    ensures histories { AreHistoriesIf P.disks parts.repositories.items result.traces }
    // Where a run is told, each repository has such a history.
    ensures reported { TellsRunBy result.reply → AreHistories P.disks parts.repositories.items result.traces }
    // What each part's disks say then is what was recorded there: each image that a crash may leave of them says what the history says,
    // but for the objects, or that with one entry that may come next.
    ensures left { TellsRunBy result.reply → EndsAs P.disks parts.repositories.items result.parts.repositories.items result.traces }
    // The history that is told is what the repositories have committed, by their traces.
    ensures committed { IfOk result.reply (SaysLines (committed_lines result.traces) (ReadAll P.disks parts.repositories.items) (IsHanded plan (vec_len parts.repositories)) (told_by S.left S.faults source.old) (told_by S.left S.faults source.new)) }
{
    let StoreParts { repositories } = parts;
    let answered = answer_in_turn(alloc, &OpenGate, &plan, source, repositories);
    write_answer(alloc, sink, answered)
}
