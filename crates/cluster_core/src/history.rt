//! The serial history of a run, from the traces of its repositories.

ghost use Rattle.cluster_core.specs.Committed as spec;
ghost use Rattle.cluster_core.specs.Committed.{committed_lines, line_for, with_line};
ghost use Rattle.log_entries.specs.declared.entry.Entry.TheVariants.{Prepared};
ghost use Rattle.std.specs.List.{fold};
ghost use Rattle.std.specs.Prelude.{IfOk, OnOk, ◌≡◌};
ghost use Rattle.thor_value.specs.FiniteMap.{empty};

use crate::lines::{Coordinated, LineMap};
use log_entries::{Entry, Kind, Request};
use repo_opening::number_at;
use repo_trace::Trace;
use std::alloc::Global;
use std::mem;
use thor_value::{NoMemory, TryCopy, both};
use top_history_check::{Line, Lines};

/// The committed items of a run, transforms aside, by rising timestamp.
///
/// A transaction is in it where its coordinator's history has its one commit or its decision to commit.
pub(crate) fn history_of(alloc: Global, traces: &[Trace]) -> Result<Lines, NoMemory>
    ensures { IfOk result (λ lines. lines ≡ committed_lines traces.now) }
{
    let mut read = Coordinated {
        prepared: LineMap::new(alloc),
        committed: LineMap::new(alloc),
    };
    let taken = take_traces(alloc, traces, &mut read);
    let (read, _) = both(read, taken)?;
    let Coordinated {
        prepared,
        committed,
    } = read;
    drop(prepared);
    committed.into_lines(alloc)
}

fn take_traces(alloc: Global, traces: &[Trace], read: &mut Coordinated) -> Result<(), NoMemory>
    ensures { OnOk result (read.new ≡ spec.take_traces 0 read.old traces.now) }
{
    for (place, trace) in traces.iter().enumerate() {
        take_trace(alloc, number_at(place)?, trace, read)?;
    }
    Ok(())
}

/// Takes what committed by a repository as the coordinator.
fn take_trace(
    alloc: Global,
    repo: u8,
    trace: &Trace,
    read: &mut Coordinated,
) -> Result<(), NoMemory>
    ensures { OnOk result (read.new ≡ spec.take_trace repo read.old trace.now) }
{
    begin(alloc, read);
    take_entries(repo, trace.history.as_slice(), read)
}

/// Nothing is prepared.
fn begin(alloc: Global, read: &mut Coordinated)
    ensures { read.new ≡ record read.old { prepared = empty } }
{
    drop(mem::replace(&mut read.prepared, LineMap::new(alloc)));
}

fn take_entries(repo: u8, history: &[Entry], read: &mut Coordinated) -> Result<(), NoMemory>
    ensures { OnOk result (read.new ≡ fold (spec.take_entry repo) read.old history.now) }
{
    for entry in history {
        take_entry(repo, entry, read)?;
    }
    Ok(())
}

/// Takes what an entry says of a transaction that its repository coordinates.
fn take_entry(repo: u8, entry: &Entry, read: &mut Coordinated) -> Result<(), NoMemory>
    ensures { OnOk result (read.new ≡ spec.take_entry repo read.old entry.now) }
{
    match entry {
        Entry::One { request } | Entry::Upgraded { request } => {
            put_line(line_of(request)?, &mut read.committed)
        }
        Entry::Prepared { request } => keep(repo, request, read),
        Entry::Decided { tx, commit: true } => {
            let line = read.prepared.take(*tx);
            put_line(line, &mut read.committed)
        }
        Entry::Life { .. } | Entry::Decided { .. } | Entry::Finished { .. } => Ok(()),
    }
}

/// Keeps the line of a prepared request that the repository coordinates.
fn keep(repo: u8, request: &Request, read: &mut Coordinated) -> Result<(), NoMemory>
    ensures { OnOk result (read.new ≡ spec.take_entry repo read.old (Prepared request.now)) }
{
    if request.tx.repo == repo {
        return put_line(line_of(request)?, &mut read.prepared);
    }
    Ok(())
}

/// Puts a line, where there is one.
fn put_line(line: Option<Line>, lines: &mut LineMap) -> Result<(), NoMemory>
    ensures { OnOk result (lines.new ≡ with_line lines.old line) }
{
    match line {
        Some(line) => lines.put(line),
        None => Ok(()),
    }
}

/// The line of a request, where it is an item's.
fn line_of(request: &Request) -> Result<Option<Line>, NoMemory>
    ensures { IfOk result (λ line. line ≡ line_for request.now) }
{
    let number = match &request.kind {
        Kind::App => 0,
        Kind::Transform => return Ok(None),
        Kind::Upgrade { .. } => request.epoch.saturating_add(1),
    };
    Ok(Some(Line {
        ts: request.tx,
        who: request.who,
        number,
        fresh: request.fresh.copy()?,
        answer: request.answer.copy()?,
    }))
}
