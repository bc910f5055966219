//! A run on threads.

ghost use Rattle.cluster_core.specs.Committed.{committed_lines};
ghost use Rattle.cluster_core.specs.Counts.{parts_of, room_of};
ghost use Rattle.std.specs.Prelude.{IfOk, vec_len, ◌≡◌, ◌≤◌};

use crate::beside::beside;
use crate::client::{Client, Job};
use crate::flushing::Flusher;
use crate::locked_port::{LockedPort, MOST_WAITS};
use crate::locks::{Locks, lock_all, unlock_all};
use crate::prompts::{Channels, Prompt, make_channels, others};
use cluster_core::{Cluster, Emptied, Finished, Seat, without_run};
use crossbeam_channel::{Receiver, Sender};
use disk_trait::Parts;
use front_end::FrontEnd;
use outside::Gate;
use schedule::Event;
use std::alloc::Global;
use std::marker::Brand;
use std::sync::Wait;
use std::thread::Threads;
use thor_value::NoMemory;

/// Runs the items of a store's clients, each client in a thread of its own, and ends the run.
///
/// Each call of a client takes the lock of one repository, and no lock is taken inside another. The restarts of the
/// schedule are performed beside the clients, in their order; its other events are passed over. A thread for
/// each repository flushes its buffer, of `mob` bytes, to half where a client left it fuller. What can't be started
/// as a thread runs in the caller. Once all threads have ended each Unknown item is asked for once more.
pub fn run_clients<R: Threads + Wait + Sync, P: Parts + Send, G: Gate + Sync>(
    rt: &R,
    alloc: Global,
    cluster: Cluster<P, Brand>,
    events: &[Event],
    mob: u32,
    gate: &G,
) -> Finished<P>
    ensures parts { vec_len result.parts ≡ parts_of cluster }
    // The lines are what the traces have as committed.
    ensures lines { IfOk result.ran (λ ran. ran.lines ≡ committed_lines ran.traces) }
{
    match cluster.emptied() {
        Ok((emptied, seats, clients)) => {
            run_apart(rt, alloc, emptied, seats, clients, events, mob, gate)
        }
        Err(cluster) => without_run(cluster.finish()),
    }
}

/// Runs the clients on repositories that were taken out of their store.
fn run_apart<R: Threads + Wait + Sync, P: Parts + Send, G: Gate + Sync>(
    rt: &R,
    alloc: Global,
    emptied: Emptied<P>,
    seats: Vec<Seat<P, Brand>>,
    clients: Vec<FrontEnd>,
    events: &[Event],
    mob: u32,
    gate: &G,
) -> Finished<P>
    requires { vec_len seats ≤ room_of emptied }
    ensures parts { vec_len result.parts ≡ vec_len seats }
    ensures lines { IfOk result.ran (λ ran. ran.lines ≡ committed_lines ran.traces) }
{
    let (seats, ran) = run_locked(
        rt,
        alloc,
        seats,
        emptied.opened(),
        clients,
        events,
        mob,
        gate,
    );
    ended(alloc, emptied, seats, ran)
}

fn ended<P: Parts>(
    alloc: Global,
    emptied: Emptied<P>,
    seats: Vec<Seat<P, Brand>>,
    ran: Result<Vec<FrontEnd>, NoMemory>,
) -> Finished<P>
    requires { vec_len seats ≤ room_of emptied }
    ensures parts { vec_len result.parts ≡ vec_len seats }
    ensures lines { IfOk result.ran (λ ran. ran.lines ≡ committed_lines ran.traces) }
{
    match ran {
        Ok(clients) => emptied.finish(seats, clients),
        Err(NoMemory) => without_run(emptied.finish(seats, Vec::new(alloc))),
    }
}

/// Has the clients run on repositories behind locks. The repositories come back.
fn run_locked<
    C: Client<S> + Send,
    S: Sync,
    R: Threads + Wait + Sync,
    P: Parts + Send,
    G: Gate + Sync,
>(
    rt: &R,
    alloc: Global,
    seats: Vec<Seat<P, Brand>>,
    opened: &S,
    clients: Vec<C>,
    events: &[Event],
    mob: u32,
    gate: &G,
) -> (Vec<Seat<P, Brand>>, Result<Vec<C>, NoMemory>)
    ensures { vec_len result.0 ≡ vec_len seats }
{
    let Ok(room) = Vec::with_capacity(alloc, seats.len()) else {
        return (seats, Err(NoMemory));
    };
    let Ok(back) = Vec::with_capacity(alloc, seats.len()) else {
        return (seats, Err(NoMemory));
    };
    let seats = lock_all(seats, room);
    let locks = Locks {
        rt,
        gate,
        seats: seats.as_slice(),
        half: mob / 2,
    };
    let ran = run_all(alloc, &locks, opened, clients, events);
    (unlock_all(seats, back), ran)
}

/// Runs the clients, and then asks once more for each Unknown item.
fn run_all<
    'a,
    C: Client<S> + Send,
    S: Sync,
    R: Threads + Wait + Sync,
    P: Parts + Send,
    G: Gate + Sync,
>(
    alloc: Global,
    locks: &'a Locks<'a, R, P, G>,
    opened: &'a S,
    clients: Vec<C>,
    events: &[Event],
) -> Result<Vec<C>, NoMemory> {
    let Channels { senders, receivers } = make_channels(alloc, locks.seats.len())?;
    let jobs = jobs_of(alloc, locks, opened, clients, senders)?;
    let flushers = flushers_of(alloc, locks, receivers)?;
    let mut clients = beside(alloc, locks, jobs, flushers, events)?;
    ask_last(alloc, locks, opened, clients.as_mut_slice())?;
    Ok(clients)
}

/// The clients, each with its port. No sender is left beside theirs.
fn jobs_of<'a, C: Client<S>, S, R: Wait, P: Parts, G: Gate>(
    alloc: Global,
    locks: &'a Locks<'a, R, P, G>,
    opened: &'a S,
    clients: Vec<C>,
    senders: Vec<Sender<Prompt>>,
) -> Result<Vec<Job<'a, C, S, R, P, G>>, NoMemory> {
    let mut jobs = Vec::with_capacity(alloc, clients.len())?;
    for client in clients {
        let port = LockedPort {
            locks,
            client: number_behind(jobs.len()),
            prompts: others(alloc, senders.as_slice())?,
            waits: MOST_WAITS,
        };
        jobs.push(Job {
            client,
            port,
            opened,
        })?;
    }
    Ok(jobs)
}

/// The number of the client behind so many others.
fn number_behind(others: usize) -> u8 {
    match u8::try_from(others) {
        Ok(others) => others.saturating_add(1),
        Err(_) => u8::MAX,
    }
}

fn flushers_of<'a, R: Wait, P: Parts, G: Gate>(
    alloc: Global,
    locks: &'a Locks<'a, R, P, G>,
    receivers: Vec<Receiver<Prompt>>,
) -> Result<Vec<Flusher<'a, R, P, G>>, NoMemory> {
    let mut flushers = Vec::with_capacity(alloc, receivers.len())?;
    for prompts in receivers {
        let Ok(repo) = u8::try_from(flushers.len()) else {
            return Err(NoMemory);
        };
        flushers.push(Flusher {
            locks,
            repo,
            prompts,
        })?;
    }
    Ok(flushers)
}

/// Asks once for each Unknown item.
fn ask_last<'a, C: Client<S>, S, R: Wait, P: Parts, G: Gate>(
    alloc: Global,
    locks: &'a Locks<'a, R, P, G>,
    opened: &S,
    clients: &mut [C],
) -> Result<(), NoMemory> {
    for (place, client) in clients.iter_mut().enumerate() {
        let mut port = LockedPort {
            locks,
            client: number_behind(place),
            prompts: Vec::new(alloc),
            waits: 0,
        };
        client.last(&mut port, opened)?;
    }
    Ok(())
}
