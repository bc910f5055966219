//! A run ends.

ghost use Rattle.cluster_core.specs.Committed.{committed_lines};
ghost use Rattle.cluster_core.specs.Counts.{parts_of};
ghost use Rattle.cluster_core.specs.Seated.{AreLeft, AreRight};
ghost use Rattle.cluster_port.specs.Lent.{AreInPlace};
ghost use Rattle.std.specs.Prelude.{IfOk, IsOkAnd, OnOk, [], false, length, vec_capacity, vec_len, ◌++◌, ◌∷◌, ◌≡◌, ◌≤◌};

use crate::cluster::Cluster;
use crate::history::history_of;
use crate::seat::Seat;
use cluster_port::{Opening, Site};
use disk_trait::Parts;
use front_end::FrontEnd;
use repo_core::{Entries, Marks, Trace, Traces};
use serial_model::Ends;
use std::alloc::Global;
use thor_value::{NoMemory, both};
use top_history_check::Lines;

/// What a run was.
#[derive(Drop)]
pub struct Ran {
    /// How the items of all clients ended.
    pub ends: Ends,
    /// The serial history of what committed, by rising timestamp.
    pub lines: Lines,
    /// What happened at each repository.
    pub traces: Traces,
}

/// What is left of a run: the parts, in their order, and what it was.
#[derive(Drop)]
pub struct Finished<P> {
    pub parts: Vec<P>,
    pub ran: Result<Ran, NoMemory>,
}

impl<P: Parts, O: Opening> Cluster<P, O> {
    /// Ends the run. It isn't told where a repository is torn: there was no memory for an entry that its log has.
    pub fn finish(self) -> Finished<P>
        ensures parts { vec_len result.parts ≡ parts_of self }
        // What was recorded at each repository is right by the base with which it began.
        ensures right { IfOk result.ran (λ ran. AreRight O.run 0 ran.traces) }
        ensures told { IfOk result.ran (λ ran. length ran.traces ≡ parts_of self) }
        // What the disks of each say then is what was recorded there.
        ensures left { IfOk result.ran (λ ran. AreLeft P.disks O.run 0 result.parts.items ran.traces) }
        // The lines are what these traces have as committed.
        ensures lines { IfOk result.ran (λ ran. ran.lines ≡ committed_lines ran.traces) }
    {
        let Cluster {
            alloc,
            sites,
            clients,
            opened,
            spare,
            ..
        } = self;
        drop(opened);
        let (parts, traces) = close_all(alloc, sites, spare);
        Finished {
            parts,
            ran: gathered(alloc, clients, traces),
        }
    }
}

/// The parts of all repositories, in a vector that is empty and has room for them, and their traces; want of memory where one of
/// them is torn.
fn close_all<P: Parts, O: Opening>(
    alloc: Global,
    sites: Vec<Site<P, O>>,
    spare: Vec<P>,
) -> (Vec<P>, Result<Traces, NoMemory>)
    requires empty { vec_len spare ≡ 0 }
    requires room { vec_len sites ≤ vec_capacity spare }
    requires placed { AreInPlace sites.items }
    ensures count { vec_len result.0 ≡ vec_len sites }
    ensures right { IfOk result.1 (AreRight O.run 0) }
    ensures told { IfOk result.1 (λ traces. length traces ≡ vec_len sites) }
    ensures left { IfOk result.1 (AreLeft P.disks O.run 0 result.0.items) }
{
    let mut parts = spare;
    let mut traces = Ok(Traces::new(alloc));
    for site in sites {
        let torn = site.is_torn();
        let (part, trace) = site.close();
        parts.push_reserved(part);
        traces = with_trace_of(traces, torn, trace);
    }
    (parts, traces)
}

/// What a run was whose repositories were apart from their store, with the parts, in a vector that is empty and has room for them.
pub(crate) fn close_seats<P: Parts, O: Opening>(
    alloc: Global,
    seats: Vec<Seat<P, O>>,
    clients: Vec<FrontEnd>,
    spare: Vec<P>,
) -> Finished<P>
    requires empty { vec_len spare ≡ 0 }
    requires room { vec_len seats ≤ vec_capacity spare }
    ensures parts { vec_len result.parts ≡ vec_len seats }
    ensures lines { IfOk result.ran (λ ran. ran.lines ≡ committed_lines ran.traces) }
{
    let (parts, traces) = close_each(alloc, seats, spare);
    Finished {
        parts,
        ran: gathered(alloc, clients, traces),
    }
}

/// The parts of all repositories, in a vector that is empty and has room for them, and their traces.
fn close_each<P: Parts, O: Opening>(
    alloc: Global,
    seats: Vec<Seat<P, O>>,
    spare: Vec<P>,
) -> (Vec<P>, Result<Traces, NoMemory>)
    requires empty { vec_len spare ≡ 0 }
    requires room { vec_len seats ≤ vec_capacity spare }
    ensures { vec_len result.0 ≡ vec_len seats }
{
    let mut parts = spare;
    let mut traces = Ok(Traces::new(alloc));
    for seat in seats {
        let (part, trace) = close(alloc, seat);
        parts.push_reserved(part);
        traces = with_trace(traces, trace);
    }
    (parts, traces)
}

/// The parts of a repository, and its trace; that of one that isn't open is empty.
fn close<P: Parts, O: Opening>(alloc: Global, seat: Seat<P, O>) -> (P, Trace) {
    match seat {
        Seat::Open(site) => site.close(),
        other => (other.into_parts(), no_trace(alloc)),
    }
}

/// The trace of a repository at which nothing happened.
fn no_trace(alloc: Global) -> Trace {
    Trace {
        history: Entries::new(alloc),
        marks: Marks::new(alloc),
    }
}

/// The traces with one more, of a repository that may be torn: then there are none.
fn with_trace_of(
    traces: Result<Traces, NoMemory>,
    torn: bool,
    trace: Trace,
) -> Result<Traces, NoMemory>
    ensures more { IfOk result (λ more. IsOkAnd traces (λ before. more ≡ before ++ trace ∷ [])) }
    ensures whole { OnOk result (torn ≡ false) }
{
    if torn {
        drop(traces);
        drop(trace);
        return Err(NoMemory);
    }
    with_trace(traces, trace)
}

/// The traces with one more.
fn with_trace(traces: Result<Traces, NoMemory>, trace: Trace) -> Result<Traces, NoMemory>
    ensures { IfOk result (λ more. IsOkAnd traces (λ before. more ≡ before ++ trace ∷ [])) }
{
    match traces {
        Ok(traces) => push_trace(traces, trace),
        Err(NoMemory) => {
            drop(trace);
            Err(NoMemory)
        }
    }
}

fn push_trace(traces: Traces, trace: Trace) -> Result<Traces, NoMemory>
    ensures { IfOk result (λ more. more ≡ traces ++ trace ∷ []) }
{
    let mut traces = traces;
    match traces.push(trace) {
        Ok(()) => Ok(traces),
        Err(NoMemory) => {
            drop(traces);
            Err(NoMemory)
        }
    }
}

/// How the items of all clients ended.
fn close_clients(alloc: Global, clients: Vec<FrontEnd>) -> Result<Ends, NoMemory> {
    let mut closed = Ok(Ends::new(alloc));
    for client in clients {
        closed = with_closed(closed, client);
    }
    closed
}

/// The same with one more client.
fn with_closed(closed: Result<Ends, NoMemory>, client: FrontEnd) -> Result<Ends, NoMemory> {
    let (ended, mut ends) = both(client.close(), closed)?;
    let appended = ends.append(ended);
    let (ends, _) = both(ends, appended)?;
    Ok(ends)
}

/// What a run was, from its clients and traces, where there are any.
fn gathered(
    alloc: Global,
    clients: Vec<FrontEnd>,
    traces: Result<Traces, NoMemory>,
) -> Result<Ran, NoMemory>
    ensures traces { IfOk result (λ ran. IsOkAnd traces (λ told. ran.traces ≡ told)) }
    ensures lines { IfOk result (λ ran. ran.lines ≡ committed_lines ran.traces) }
{
    match traces {
        Ok(traces) => gather(alloc, clients, traces),
        Err(NoMemory) => {
            drop(clients);
            Err(NoMemory)
        }
    }
}

/// What a run was, from its clients and traces.
fn gather(alloc: Global, clients: Vec<FrontEnd>, traces: Traces) -> Result<Ran, NoMemory>
    ensures traces { IfOk result (λ ran. ran.traces ≡ traces) }
    ensures lines { IfOk result (λ ran. ran.lines ≡ committed_lines ran.traces) }
{
    let (traces, ends) = both(traces, close_clients(alloc, clients))?;
    let lines = history_of(alloc, traces.as_slice());
    let ((traces, ends), lines) = both((traces, ends), lines)?;
    Ok(Ran {
        ends,
        lines,
        traces,
    })
}
