//! The places at which sessions were told what their clients haven't acknowledged.

ghost use Rattle.cached_sets.specs.Noted.{is_silent, noted_from, places_from, places_of, with_place};
ghost use Rattle.std.specs.Prelude.{IfOk, OnErr, OnOk, length, ◌+◌, ◌≡◌};
ghost use Rattle.thor_value.specs.FiniteMap.{empty, remove};

use crate::place_queue::PlaceQueue;
use std::alloc::Global;
use std::collections::BTreeMap;
use std::marker::Model;
use std::sync::ledger::Ledger;
use thor_value::{NoMemory, StepCount};

/// The places of some sessions. Contracts see them as a finite map of lists.
#[derive(Drop)]
pub struct NotedPlaces {
    queues: BTreeMap<u32, PlaceQueue>,
    alloc: Global,
}

impl Model for NotedPlaces {
    ghost use Rattle.cached_sets.specs.Noted.{Noted};

    ghost Value = { Noted };

    ghost view = { λ n. record { pairs = n.queues.entries } };
}

impl NotedPlaces {
    /// No session has a place. It takes no memory.
    pub fn new(alloc: Global) -> NotedPlaces
        ensures { result ≡ empty }
    {
        NotedPlaces {
            queues: BTreeMap::new(alloc),
            alloc,
        }
    }

    /// Puts a place behind those of a session, and answers whether it has more than it may then. After `NoMemory` all is
    /// as it was.
    pub fn note(&mut self, session: u32, place: u64) -> Result<bool, NoMemory>
        ensures answer { IfOk result (λ silent. silent ≡ is_silent self.new session) }
        ensures ok { OnOk result (self.new ≡ with_place self.old session place) }
        ensures err { OnErr result (self.new ≡ self.old) }
    {
        self.push(session, place)?;
        Ok(self.is_silent(session))
    }

    fn push(&mut self, session: u32, place: u64) -> Result<(), NoMemory>
        ensures ok { OnOk result (self.new ≡ with_place self.old session place) }
        ensures err { OnErr result (self.new ≡ self.old) }
    {
        if let Some(queue) = self.queues.get_mut(&session) {
            return queue.push(place);
        }
        let mut queue = PlaceQueue::new(self.alloc);
        queue.push(place)?;
        self.queues.insert(session, queue)?;
        Ok(())
    }

    /// How many places a session has.
    pub fn len(&self, session: u32) -> usize
        ensures { result ≡ length (places_of self.now session) }
    {
        match self.queues.get(&session) {
            Some(queue) => queue.len(),
            None => 0,
        }
    }

    /// Whether a session has more places than it may have.
    fn is_silent(&self, session: u32) -> bool
        ensures { result ≡ is_silent self.now session }
    {
        match self.queues.get(&session) {
            Some(queue) => queue.is_over(),
            None => false,
        }
    }

    /// Takes the first places of a session away, as long as they are below one. Each counts a step.
    pub fn keep_from<L: Ledger>(&mut self, session: u32, upto: u64, steps: &mut StepCount<L>)
        ensures rest { self.new ≡ noted_from session upto self.old }
        ensures cost { steps.new + length (places_from upto (places_of self.old session)) ≡ steps.old + length (places_of self.old session) }
    {
        if let Some(queue) = self.queues.get_mut(&session) {
            queue.keep_from(upto, steps);
        }
    }

    /// A session ends: it has no place. They go as a whole.
    pub fn close(&mut self, session: u32)
        ensures { self.new ≡ remove self.old session }
    {
        self.queues.remove(&session);
    }
}
