//! What a client does in its thread.

use crate::locked_port::LockedPort;
use client_port::Port;
use disk_trait::Parts;
use front_end::{FrontEnd, Opened, Step};
use outside::Gate;
use std::sync::Wait;
use thor_value::NoMemory;

/// A client of an opened store, which goes on by steps.
pub(crate) trait Client<S>: Drop {
    /// Takes one step, which makes one call at most.
    fn step<Q: Port>(&mut self, port: &mut Q, opened: &S) -> Result<Step, NoMemory>;

    /// Asks once for each Unknown item.
    fn last<Q: Port>(&mut self, port: &mut Q, opened: &S) -> Result<(), NoMemory>;

    /// How many of its items have ended.
    fn ended_count(&self) -> usize;
}

impl Client<Opened> for FrontEnd {
    fn step<Q: Port>(&mut self, port: &mut Q, opened: &Opened) -> Result<Step, NoMemory> {
        FrontEnd::step(self, port, opened)
    }

    fn last<Q: Port>(&mut self, port: &mut Q, opened: &Opened) -> Result<(), NoMemory> {
        FrontEnd::last(self, port, opened)
    }

    fn ended_count(&self) -> usize {
        self.outcomes().len()
    }
}

/// A client with what it calls.
#[derive(Drop)]
pub(crate) struct Job<'a, C: Client<S>, S, R: Wait, P: Parts, G: Gate> {
    pub(crate) client: C,
    pub(crate) port: LockedPort<'a, R, P, G>,
    pub(crate) opened: &'a S,
}

/// Has a client take steps until all its items have ended. The gate is told of each that ends. What the client prompts with goes with
/// its port.
pub(crate) fn play_out<C: Client<S>, S, R: Wait, P: Parts, G: Gate>(
    job: Job<'_, C, S, R, P, G>,
) -> Result<C, NoMemory> {
    let Job {
        mut client,
        mut port,
        opened,
    } = job;
    for _ in 0..u64::MAX {
        let before = client.ended_count();
        match client.step(&mut port, opened)? {
            Step::Moved => {
                let ended = client.ended_count().saturating_sub(before);
                port.locks.gate.end_items(ended);
            }
            Step::Ended => break,
        }
    }
    Ok(client)
}
