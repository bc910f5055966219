//! The invalid set of one session.

ghost use Rattle.cached_sets.specs.Invalid.{first_stale, from, if_behind, next_of};
ghost use Rattle.cached_sets.specs.Cost.{stale_steps};
ghost use Rattle.cached_sets.specs.Undoing.{put_back};
ghost use Rattle.cached_sets.specs.Bounds.{bound_behind};
ghost use Rattle.std.specs.Option.{option_and_then};
ghost use Rattle.std.specs.Prelude.{IfOk, None, OnErr, OnOk, OnSome, length, ◌+◌, ◌<◌, ◌≡◌, ◌≤◌};
ghost use Rattle.thor_value.specs.FiniteMap.{empty, get, insert, len};
ghost use Rattle.validation_queue.specs.Names.{Rises};

use std::alloc::Global;
use std::collections::BTreeMap;
use std::marker::Model;
use std::ops::Bound;
use std::sync::ledger::Ledger;
use thor_value::{NoMemory, Oref, StepCount};
use validation_queue::is_one_of;

/// The objects of which a client may have a copy that isn't current, each with the place of its last
/// write by another session. Contracts see it as a finite map.
#[derive(Drop)]
pub struct InvalidSet {
    places: BTreeMap<Oref, u64>,
}

impl Model for InvalidSet {
    ghost use Rattle.cached_sets.specs.Invalid.{Invalid};
    ghost use Rattle.std.specs.Coded.{coded_ℕ};
    ghost use Rattle.thor_value.specs.FiniteMap.{code};
    ghost use Rattle.thor_value.specs.Names.{coded_oref};

    ghost Value = { Invalid };

    ghost coded = { code coded_oref coded_ℕ };

    ghost view = { λ s. record { pairs = s.places.entries } };
}

/// Where a walk goes on behind a name, or begins.
fn behind(last: Option<Oref>) -> Bound<Oref>
    ensures { result ≡ bound_behind last }
{
    match last {
        Some(last) => Bound::Excluded(last),
        None => Bound::Unbounded,
    }
}

impl InvalidSet {
    /// The empty set. It takes no memory.
    pub fn new(alloc: Global) -> InvalidSet
        ensures { result ≡ empty }
    {
        InvalidSet {
            places: BTreeMap::new(alloc),
        }
    }

    /// The place of an object, where it is in the set.
    pub fn place(&self, oref: Oref) -> Option<u64>
        ensures { result ≡ get self.now oref }
    {
        self.places.get(&oref).copied()
    }

    /// Puts an object in, or changes its place, and answers the place that it had. After `NoMemory` the set is as it was,
    /// and the object wasn't there.
    pub fn put(&mut self, oref: Oref, place: u64) -> Result<Option<u64>, NoMemory>
        ensures ok { OnOk result (self.new ≡ insert self.old oref place) }
        ensures err { OnErr result (self.new ≡ self.old) }
        ensures undone { IfOk result (λ before. put_back self.new oref before ≡ self.old) }
    {
        let before = self.places.insert(oref, place)?;
        Ok(before)
    }

    /// Gives an object back the place that it had, or takes it out.
    pub fn put_back(&mut self, oref: Oref, before: Option<u64>)
        ensures { self.new ≡ put_back self.old oref before }
    {
        match before {
            Some(before) => {
                if let Some(place) = self.places.get_mut(&oref) {
                    *place = before;
                }
            }
            None => {
                self.places.remove(&oref);
            }
        }
    }

    /// Takes the objects out that were written below a place.
    pub fn keep_from(&mut self, upto: u64)
        ensures { self.new ≡ from upto self.old }
    {
        self.places.retain(|_, place| upto <= *place);
    }

    /// The least of some names that is in the set at a place not below `upto`, with its place. It looks
    /// at the names or at the set, whichever are fewer, and counts a step for each that it looks at.
    pub fn first_stale<L: Ledger>(
        &self,
        names: &[Oref],
        upto: u64,
        steps: &mut StepCount<L>,
    ) -> Option<(Oref, u64)>
        requires { Rises names.now }
        ensures value { result ≡ first_stale self.now upto names.now }
        ensures cost { steps.new ≤ steps.old + stale_steps self.now names.now }
        ensures all { result ≡ None → steps.new ≡ steps.old + stale_steps self.now names.now }
        ensures some { OnSome result (steps.old < steps.new) }
    {
        if self.places.len() < names.len() {
            self.first_of_set(names, upto, steps)
        } else {
            self.first_of_names(names, upto, steps)
        }
    }

    /// A name with its place, where it is in the set at a place not below `upto`.
    fn if_stale(&self, name: Oref, upto: u64) -> Option<(Oref, u64)>
        ensures { result ≡ option_and_then (if_behind upto name) (get self.now name) }
    {
        let place = self.place(name)?;
        if upto <= place {
            Some((name, place))
        } else {
            None
        }
    }

    fn first_of_names<L: Ledger>(
        &self,
        names: &[Oref],
        upto: u64,
        steps: &mut StepCount<L>,
    ) -> Option<(Oref, u64)>
        ensures value { result ≡ first_stale self.now upto names.now }
        ensures cost { steps.new ≤ steps.old + length names.now }
        ensures all { result ≡ None → steps.new ≡ steps.old + length names.now }
        ensures some { OnSome result (steps.old < steps.new) }
    {
        for name in names {
            steps.tick();
            if let Some(stale) = self.if_stale(*name, upto) {
                return Some(stale);
            }
        }
        None
    }

    fn first_of_set<L: Ledger>(
        &self,
        names: &[Oref],
        upto: u64,
        steps: &mut StepCount<L>,
    ) -> Option<(Oref, u64)>
        requires { Rises names.now }
        ensures value { result ≡ first_stale self.now upto names.now }
        ensures cost { steps.new ≤ steps.old + len self.now }
        ensures all { result ≡ None → steps.new ≡ steps.old + len self.now }
        ensures some { OnSome result (steps.old < steps.new) }
    {
        for (oref, place) in self.places.iter() {
            steps.tick();
            if upto <= *place && is_one_of(names, *oref) {
                return Some((*oref, *place));
            }
        }
        None
    }

    /// The next object of the set behind one, names rising, with its place.
    pub fn next(&self, after: Option<Oref>) -> Option<(Oref, u64)>
        ensures { result ≡ next_of self.now after }
    {
        let bounds = (behind(after), Bound::Unbounded);
        match self.places.range(bounds).next() {
            Some((oref, place)) => Some((*oref, *place)),
            None => None,
        }
    }
}
