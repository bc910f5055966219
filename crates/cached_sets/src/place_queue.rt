//! The places of one session.

ghost use Rattle.cached_sets.specs.Noted.{begins_below, most_noted, places_from};
ghost use Rattle.std.specs.Prelude.{OnErr, OnOk, [], drop, length, nat_lt, ◌++◌, ◌+◌, ◌≡◌, ◌∷◌};

use std::alloc::Global;
use std::collections::VecDeque;
use std::marker::Model;
use std::sync::ledger::Ledger;
use thor_value::{NoMemory, StepCount};

/// How many places a session may have.
const MOST: usize = 4_096;

/// The places at which one session was told what its client hasn't acknowledged. Contracts see them as a list, the
/// first one first.
#[derive(Drop)]
pub struct PlaceQueue {
    places: VecDeque<u64>,
}

impl Model for PlaceQueue {
    ghost use Rattle.std.specs.Prelude.{List, ℕ};

    ghost Value = { List ℕ };

    ghost view = { λ q. q.places.items };
}

impl PlaceQueue {
    /// No place. It takes no memory.
    pub fn new(alloc: Global) -> PlaceQueue
        ensures { result ≡ [] }
    {
        PlaceQueue {
            places: VecDeque::new(alloc),
        }
    }

    /// Puts a place behind the others. After `NoMemory` they are as they were.
    pub fn push(&mut self, place: u64) -> Result<(), NoMemory>
        ensures ok { OnOk result (self.new ≡ self.old ++ place ∷ []) }
        ensures err { OnErr result (self.new ≡ self.old) }
    {
        self.places.push_back(place)?;
        Ok(())
    }

    /// How many places there are.
    pub fn len(&self) -> usize
        ensures { result ≡ length self.now }
    {
        self.places.len()
    }

    /// Whether there are more places than a session may have.
    pub fn is_over(&self) -> bool
        ensures { result ≡ nat_lt most_noted (length self.now) }
    {
        self.places.len() > MOST
    }

    /// Whether the first place is below one.
    fn begins_below(&self, upto: u64) -> bool
        ensures { result ≡ begins_below upto self.now }
    {
        match self.places.front() {
            Some(place) => *place < upto,
            None => false,
        }
    }

    /// Takes the first place away.
    fn take(&mut self)
        ensures { self.new ≡ drop 1 self.old }
    {
        self.places.pop_front();
    }

    /// Takes the first places away, as long as they are below one. Each counts a step, and of those that stay the first
    /// alone is looked at.
    #[tactic(auto, using(crate::proofs::Places::from_stays, crate::proofs::Places::from_goes, crate::proofs::Places::one_less))]
    pub fn keep_from<L: Ledger>(&mut self, upto: u64, steps: &mut StepCount<L>)
        ensures rest { self.new ≡ places_from upto self.old }
        ensures cost { steps.new + length (places_from upto self.old) ≡ steps.old + length self.old }
    {
        while self.begins_below(upto) {
            steps.tick();
            self.take();
        }
    }
}
