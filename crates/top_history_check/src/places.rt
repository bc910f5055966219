ghost use Rattle.std.specs.Prelude.{◌≡◌, ◌<◌, IfOk, IfSome, OnOk};
ghost use Rattle.top_history_check.specs.Places as spec;
ghost use Rattle.top_history_check.specs.Places.{Finds};
ghost use Rattle.thor_value.specs.FiniteMap.{get, insert};

use serial_model::Did;
use std::alloc::Global;
use std::collections::BTreeMap;
use std::marker::Model;
use thor_value::{NoMemory, Who};

/// A number for each item of a script.
fn key(who: Who) -> u64
    ensures { result ≡ spec.key who }
{
    (who.client as u64) * 4_294_967_296 + who.index as u64
}

/// Where a history has the entry of each item that has one.
#[derive(Drop)]
pub struct Places {
    places: BTreeMap<u64, usize>,
}

impl Model for Places {
    ghost use Rattle.std.specs.Ordering.{nat_cmp};
    ghost use Rattle.std.specs.Prelude.{ℕ};
    ghost use Rattle.thor_value.specs.FiniteMap.{Map};

    ghost Value = { Map nat_cmp ℕ };

    ghost view = { λ p. record { pairs = p.places.entries } };
}

impl Places {
    /// The place of an item's entry.
    pub fn get(&self, who: Who) -> Option<usize>
        ensures { result ≡ get self.now (spec.key who) }
    {
        self.places.get(&key(who)).copied()
    }

    /// Puts an item's entry at a place.
    fn put(&mut self, who: Who, place: usize) -> Result<(), NoMemory>
        ensures put { OnOk result (self.new ≡ insert self.old (spec.key who) place) }
        ensures low { OnOk result (who.index < 4294967296) }
    {
        self.places.insert(key(who), place)?;
        Ok(())
    }
}

/// The places of a history's entries; `None` where an item has two.
pub fn places_of(alloc: Global, history: &[Did]) -> Result<Option<Places>, NoMemory>
    ensures { IfOk result (λ places. IfSome places (λ p. Finds p history.now)) }
{
    let mut places = Places {
        places: BTreeMap::new(alloc),
    };
    for place in 0..history.len() {
        let who = history[place].who;
        match places.get(who) {
            Some(_) => return Ok(None),
            None => places.put(who, place)?,
        }
    }
    Ok(Some(places))
}
