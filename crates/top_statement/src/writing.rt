//! A reply goes to the sink.

ghost use Rattle.outside.specs.Faults.{Rose};
ghost use Rattle.std.specs.Prelude.{IfOk, List, Ok, ℕ, ◌≡◌};
ghost use Rattle.top_reply.specs.Replies.{text_of};
ghost use Rattle.top_statement.specs.Written.{Writes, Wrote};

use crate::answered::{Answered, Outcome, StoreParts};
use crate::unwritten::Unwritten;
use outside::{Sink, write_all};
use script_parse::refusal_text;
use std::alloc::Global;
use thor_value::{NoMemory, Text};
use top_reply::{
    Reply, Status, damaged_text, disagreement_text, disk_text, limit_text, no_report_text,
    status_of,
};

/// Writes bytes.
fn put<K: Sink>(sink: &mut K, bytes: &[u8]) -> Result<(), Unwritten>
    ensures { Writes (K.taken sink.old) (K.taken sink.new) (K.faults sink.old) (K.faults sink.new) bytes.now result }
{
    match write_all(sink, bytes) {
        Ok(()) => Ok(()),
        Err(_) => Err(Unwritten::Failed),
    }
}

/// Writes a text, where there was memory for it.
fn put_text<K: Sink>(sink: &mut K, text: Result<Text, NoMemory>) -> Result<(), Unwritten>
    ensures { (wanted : List ℕ) → IfOk text (λ made. made ≡ wanted) → Writes (K.taken sink.old) (K.taken sink.new) (K.faults sink.old) (K.faults sink.new) wanted result }
{
    match text {
        Ok(text) => put(sink, text.as_slice()),
        Err(NoMemory) => Err(Unwritten::NoMemory),
    }
}

/// Writes the text of a reply.
fn write_reply<K: Sink>(alloc: Global, sink: &mut K, reply: &Reply) -> Result<(), Unwritten>
    ensures { Writes (K.taken sink.old) (K.taken sink.new) (K.faults sink.old) (K.faults sink.new) (text_of reply.now) result }
{
    match reply {
        Reply::Report { text, .. } => put(sink, text.as_slice()),
        Reply::Summary { text, .. } => put(sink, text.as_slice()),
        Reply::Accepted => put(sink, b"ok\n"),
        Reply::Refused { refusal } => put_text(sink, refusal_text(alloc, *refusal)),
        Reply::Limit { limit } => put_text(sink, limit_text(alloc, *limit)),
        Reply::DiskFault { repo } => put_text(sink, disk_text(alloc, *repo)),
        Reply::Damaged { repo, disk, place } => {
            put_text(sink, damaged_text(alloc, *repo, *disk, *place))
        }
        Reply::Words => put(sink, b"words\n"),
        Reply::SourceFault => put(sink, b"source\n"),
        Reply::Legal => put(sink, b"legal\n"),
        Reply::Disagrees { at } => put_text(sink, disagreement_text(alloc, *at)),
        Reply::NoReport { line } => put_text(sink, no_report_text(alloc, *line)),
    }
}

/// Writes a reply. The answer is the status with which the program ends, and the reply; nothing where there was no memory for
/// its text.
fn write_made<K: Sink>(
    alloc: Global,
    sink: &mut K,
    reply: Reply,
) -> (Status, Result<Reply, NoMemory>)
    ensures wrote { Wrote result.1 (K.taken sink.old) (K.taken sink.new) (K.faults sink.old) (K.faults sink.new) result.0 }
    ensures same { IfOk result.1 (λ written. written ≡ reply) }
{
    match write_reply(alloc, sink, &reply) {
        Ok(()) => (status_of(&reply), Ok(reply)),
        Err(Unwritten::Failed) => (Status::SinkFault, Ok(reply)),
        Err(Unwritten::NoMemory) => {
            drop(reply);
            (Status::NoMemory, Err(NoMemory))
        }
    }
}

/// Writes what is to be replied, where memory was there.
fn write<K: Sink>(
    alloc: Global,
    sink: &mut K,
    reply: Result<Reply, NoMemory>,
) -> (Status, Result<Reply, NoMemory>)
    ensures wrote { Wrote result.1 (K.taken sink.old) (K.taken sink.new) (K.faults sink.old) (K.faults sink.new) result.0 }
    ensures same { IfOk result.1 (λ written. reply ≡ Ok written) }
{
    match reply {
        Ok(reply) => write_made(alloc, sink, reply),
        Err(NoMemory) => (Status::NoMemory, Err(NoMemory)),
    }
}

/// Writes an answer, with which the program ends.
pub fn write_answer<K: Sink, P>(alloc: Global, sink: &mut K, answered: Answered<P>) -> Outcome<P>
    ensures wrote { Wrote result.reply (K.taken sink.old) (K.taken sink.new) (K.faults sink.old) (K.faults sink.new) result.status }
    ensures sink_fault { result.status ≡ Status.SinkFault → Rose (K.faults sink.old) (K.faults sink.new) }
    ensures nothing { result.status ≡ Status.NoMemory → K.taken sink.new ≡ K.taken sink.old }
    ensures reply { IfOk result.reply (λ written. answered.reply ≡ Ok written) }
    ensures parts { result.parts.repositories ≡ answered.parts }
    ensures traces { result.traces ≡ answered.traces }
{
    let Answered {
        reply,
        parts,
        traces,
    } = answered;
    let (status, reply) = write(alloc, sink, reply);
    Outcome {
        status,
        reply,
        parts: StoreParts {
            repositories: parts,
        },
        traces,
    }
}
