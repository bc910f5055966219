//! Clients, flushers and restarts beside one another.

ghost use Rattle.std.specs.Thread.{IsSend, IsSync};

use crate::client::{Client, Job, play_out};
use crate::flushing::{Flusher, flush_when_prompted};
use crate::locks::Locks;
use crate::restarts::restart_all;
use disk_trait::Parts;
use outside::Gate;
use schedule::Event;
use std::alloc::Global;
use std::sync::Wait;
use std::thread;
use std::thread::Threads;
use thor_value::NoMemory;

/// Has the clients run to their end, and each flusher in a thread of its own meanwhile. A flusher that can't be started
/// runs here behind the clients, when no prompt comes any more.
pub(crate) fn beside<
    'a,
    C: Client<S> + Send,
    S: Sync,
    R: Threads + Wait + Sync,
    P: Parts + Send,
    G: Gate + Sync,
>(
    alloc: Global,
    locks: &'a Locks<'a, R, P, G>,
    jobs: Vec<Job<'a, C, S, R, P, G>>,
    flushers: Vec<Flusher<'a, R, P, G>>,
    events: &[Event],
) -> Result<Vec<C>, NoMemory> {
    let rt = locks.rt;
    thread::scope(
        thread::scope_env(),
        rt,
        |scope| -> Result<Vec<C>, NoMemory>
            requires { IsSend C.row × IsSync S.row × IsSync R.row × IsSend P.row × IsSync G.row }
        {
            let mut left = Vec::with_capacity(alloc, flushers.len())?;
            for flusher in flushers {
                match scope.spawn(move || flush_when_prompted(flusher)) {
                    Ok(_) => {}
                    Err(refused) => left.push(refused.value)?,
                }
            }
            let clients = run_jobs(alloc, locks, jobs, events);
            for flush in left {
                flush();
            }
            clients
        },
    )
}

/// Has each client in a thread of its own, and performs the restarts beside them. A client that can't be started runs
/// here. The clients come back in their order.
fn run_jobs<
    'a,
    C: Client<S> + Send,
    S: Sync,
    R: Threads + Wait + Sync,
    P: Parts + Send,
    G: Gate + Sync,
>(
    alloc: Global,
    locks: &'a Locks<'a, R, P, G>,
    jobs: Vec<Job<'a, C, S, R, P, G>>,
    events: &[Event],
) -> Result<Vec<C>, NoMemory> {
    let rt = locks.rt;
    thread::scope(
        thread::scope_env(),
        rt,
        |scope| -> Result<Vec<C>, NoMemory>
            requires { IsSend C.row × IsSync S.row × IsSync R.row × IsSend P.row × IsSync G.row }
        {
            let mut started = Vec::with_capacity(alloc, jobs.len())?;
            let mut ended = Vec::with_capacity(alloc, jobs.len())?;
            for job in jobs {
                match scope.spawn(move || play_out(job)) {
                    Ok(thread) => started.push(Ok(thread))?,
                    Err(refused) => started.push(Err(refused.value))?,
                }
            }
            let restarted = restart_all(locks, events);
            for client in started {
                match client {
                    Ok(thread) => ended.push(thread.join(rt))?,
                    Err(run) => ended.push(run())?,
                }
            }
            restarted?;
            all_of(alloc, ended)
        },
    )
}

/// All clients, where none met want of memory.
fn all_of<C: Drop>(alloc: Global, ended: Vec<Result<C, NoMemory>>) -> Result<Vec<C>, NoMemory> {
    let mut clients = Vec::with_capacity(alloc, ended.len())?;
    for client in ended {
        clients.push(client?)?;
    }
    Ok(clients)
}
