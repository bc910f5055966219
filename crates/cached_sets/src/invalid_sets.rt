//! The invalid sets of all sessions.

ghost use Rattle.cached_sets.specs.Cost.{stale_steps};
ghost use Rattle.cached_sets.specs.Invalid.{Invalids, change, first_stale, from, mark, next_of, set_of};
ghost use Rattle.cached_sets.specs.Sets.{opened, told_of};
ghost use Rattle.cached_sets.specs.Undoing.{undo, unmark};
ghost use Rattle.std.specs.Prelude.{IfOk, IsTrue, None, OnErr, OnOk, OnSome, [], length, map, not, ◌++◌, ◌+◌, ◌<◌, ◌∷◌, ◌≡◌, ◌≤◌};
ghost use Rattle.thor_value.specs.FiniteMap.{empty, has, remove};
ghost use Rattle.validation_queue.specs.Names.{Rises};

use crate::invalid_set::InvalidSet;
use crate::marked::Marked;
use std::alloc::Global;
use std::collections::BTreeMap;
use std::marker::Model;
use std::sync::ledger::Ledger;
use thor_value::{NoMemory, Oref, StepCount};

/// The invalid sets of some sessions. Contracts see them as a finite map.
#[derive(Drop)]
pub struct InvalidSets {
    sets: BTreeMap<u32, InvalidSet>,
    alloc: Global,
}

impl Model for InvalidSets {
    ghost use Rattle.cached_sets.specs.Invalid.{Invalids};
    ghost use Rattle.std.specs.Coded.{coded_ℕ};
    ghost use Rattle.thor_value.specs.FiniteMap.{code};
    ghost use Rattle.thor_value.specs.Names.{coded_oref};

    ghost Value = { Invalids };

    ghost coded = { code coded_ℕ (code coded_oref coded_ℕ) };

    ghost view = { λ s. record { pairs = s.sets.entries } };
}

impl InvalidSets {
    /// No session has a set. It takes no memory.
    pub fn new(alloc: Global) -> InvalidSets
        ensures { result ≡ empty }
    {
        InvalidSets {
            sets: BTreeMap::new(alloc),
            alloc,
        }
    }

    /// Gives a session an empty set, where it has none, and answers whether it had none. After
    /// `NoMemory` all is as it was.
    pub fn open(&mut self, session: u32) -> Result<bool, NoMemory>
        ensures answer { IfOk result (λ new. new ≡ not (has self.old session)) }
        ensures ok { OnOk result (self.new ≡ opened self.old session) }
        ensures err { OnErr result (self.new ≡ self.old) }
        ensures undone { IfOk result (λ new. IsTrue new → remove self.new session ≡ self.old) }
    {
        if self.sets.contains_key(&session) {
            return Ok(false);
        }
        self.sets.insert(session, InvalidSet::new(self.alloc))?;
        Ok(true)
    }

    /// Puts an object into the set of a session, where it has one, and tells `done` of it. After `NoMemory` the sets are as they
    /// were; `done` takes them back to where they began.
    pub fn mark(
        &mut self,
        session: u32,
        oref: Oref,
        place: u64,
        done: &mut Vec<Marked>,
    ) -> Result<(), NoMemory>
        ensures ok { OnOk result (self.new ≡ mark self.old session oref place) }
        ensures told { OnOk result (map told_of done.new.items ≡ map told_of done.old.items ++ (session, oref) ∷ []) }
        ensures undone { (N : Invalids) → undo self.old done.old.items ≡ N → undo self.new done.new.items ≡ N }
        ensures one { length done.new.items ≤ length done.old.items + 1 }
    {
        done.reserve(1)?;
        let before = self.put(session, oref, place)?;
        done.push_reserved(Marked {
            session,
            oref,
            before,
        });
        Ok(())
    }

    /// Puts an object into the set of a session, where it has one, and answers the place that it had there. After
    /// `NoMemory` the sets are as they were.
    fn put(&mut self, session: u32, oref: Oref, place: u64) -> Result<Option<u64>, NoMemory>
        ensures ok { OnOk result (self.new ≡ mark self.old session oref place) }
        ensures err { OnErr result (self.new ≡ self.old) }
        ensures undone { IfOk result (λ before. unmark self.new (record { session = session; oref = oref; before = before }) ≡ self.old) }
    {
        let Some(set) = self.sets.get_mut(&session) else {
            return Ok(None);
        };
        let before = set.put(oref, place)?;
        Ok(before)
    }

    /// Takes marks back, the last one first, and counts a step for each.
    pub fn undo<L: Ledger>(&mut self, mut done: Vec<Marked>, steps: &mut StepCount<L>)
        ensures rest { self.new ≡ undo self.old done.items }
        ensures cost { steps.new ≡ steps.old + length done.items }
    {
        while let Some(mark) = done.pop() {
            steps.tick();
            if let Some(set) = self.sets.get_mut(&mark.session) {
                set.put_back(mark.oref, mark.before);
            }
        }
    }

    /// Takes out of the set of a session what was written below a place.
    pub fn keep_from(&mut self, session: u32, upto: u64)
        ensures { self.new ≡ change self.old session (from upto) }
    {
        if let Some(set) = self.sets.get_mut(&session) {
            set.keep_from(upto);
        }
    }

    /// Ends the set of a session.
    pub fn close(&mut self, session: u32)
        ensures { self.new ≡ remove self.old session }
    {
        self.sets.remove(&session);
    }

    /// The least of some names that is in the set of a session at a place not below `upto`. It counts a
    /// step for each of the names or of the set that it looks at.
    pub fn first_stale<L: Ledger>(
        &self,
        session: u32,
        names: &[Oref],
        upto: u64,
        steps: &mut StepCount<L>,
    ) -> Option<(Oref, u64)>
        requires { Rises names.now }
        ensures value { result ≡ first_stale (set_of self.now session) upto names.now }
        ensures cost { steps.new ≤ steps.old + stale_steps (set_of self.now session) names.now }
        ensures all { result ≡ None → steps.new ≡ steps.old + stale_steps (set_of self.now session) names.now }
        ensures some { OnSome result (steps.old < steps.new) }
    {
        match self.sets.get(&session) {
            Some(set) => set.first_stale(names, upto, steps),
            None => None,
        }
    }

    /// The next object of the set of a session, names rising.
    pub fn next(&self, session: u32, after: Option<Oref>) -> Option<(Oref, u64)>
        ensures { result ≡ next_of (set_of self.now session) after }
    {
        match self.sets.get(&session) {
            Some(set) => set.next(after),
            None => None,
        }
    }
}
