//! What a history has of each item.

ghost use Rattle.std.specs.Prelude.{◌≡◌, ◌<◌, IfOk, OnOk};
ghost use Rattle.audit_check.specs.Standings as spec;
ghost use Rattle.audit_check.specs.Standings.{Stand};
ghost use Rattle.thor_value.specs.FiniteMap.{get, insert};
ghost use Rattle.top_history_check.specs.Places.{key};

use crate::standing::Standing;
use serial_model::Did;
use std::alloc::Global;
use std::collections::BTreeMap;
use std::marker::Model;
use thor_value::{NoMemory, Who};

/// The least number of the items that entries of each client are of.
#[derive(Drop)]
struct LeastItems {
    least: BTreeMap<u8, u32>,
}

impl Model for LeastItems {
    ghost use Rattle.std.specs.Ordering.{nat_cmp};
    ghost use Rattle.std.specs.Prelude.{ℕ};
    ghost use Rattle.thor_value.specs.FiniteMap.{Map};

    ghost Value = { Map nat_cmp ℕ };

    ghost view = { λ l. record { pairs = l.least.entries } };
}

impl LeastItems {
    /// Whether an item's number is below those of its client.
    fn is_below(&self, who: Who) -> bool
        ensures { result ≡ spec.is_below (get self.now who.client) who.index }
    {
        match self.least.get(&who.client) {
            Some(least) => who.index < *least,
            None => true,
        }
    }

    /// The least number of its client, with an item's.
    fn lesser(&self, who: Who) -> u32
        ensures { result ≡ spec.lesser (get self.now who.client) who.index }
    {
        match self.least.get(&who.client) {
            Some(least) => (*least).min(who.index),
            None => who.index,
        }
    }

    fn put(&mut self, who: Who) -> Result<(), NoMemory>
        ensures { OnOk result (self.new ≡ insert self.old who.client (spec.lesser (get self.old who.client) who.index)) }
    {
        let least = self.lesser(who);
        self.least.insert(who.client, least)?;
        Ok(())
    }
}

/// A number for each item of a script.
fn key(who: Who) -> u64
    ensures { result ≡ key who }
{
    (who.client as u64) * 4_294_967_296 + who.index as u64
}

/// What a history has of each item of which it has an entry.
#[derive(Drop)]
pub(crate) struct Standings {
    standings: BTreeMap<u64, Standing>,
}

impl Model for Standings {
    ghost use Rattle.std.specs.Ordering.{nat_cmp};
    ghost use Rattle.thor_value.specs.FiniteMap.{Map};
    ghost use Rattle.audit_check.specs.declared.standing.Standing.{Standing};

    ghost Value = { Map nat_cmp Standing };

    ghost view = { λ s. record { pairs = s.standings.entries } };
}

impl Standings {
    /// What the history has of an item; `None` where it has no entry of it.
    pub(crate) fn get(&self, who: Who) -> Option<Standing>
        ensures { result ≡ get self.now (key who) }
    {
        self.standings.get(&key(who)).copied()
    }

    /// Puts an item's entry in front.
    fn put(&mut self, who: Who, place: usize, in_order: bool) -> Result<(), NoMemory>
        ensures put { OnOk result (self.new ≡ insert self.old (key who) (spec.one_more place in_order (get self.old (key who)))) }
        ensures low { OnOk result (who.index < 4294967296) }
    {
        let standing = match self.get(who) {
            None => Standing::Once { place, in_order },
            Some(_) => Standing::Twice,
        };
        self.standings.insert(key(who), standing)?;
        Ok(())
    }
}

/// What a history has of each item: its entries from the last to the first.
pub(crate) fn standings_of(alloc: Global, history: &[Did]) -> Result<Standings, NoMemory>
    ensures { IfOk result (λ standings. Stand standings history.now) }
{
    let mut least = LeastItems {
        least: BTreeMap::new(alloc),
    };
    let mut standings = Standings {
        standings: BTreeMap::new(alloc),
    };
    for behind in 0..history.len() {
        let place = history.len() - 1 - behind;
        let who = history[place].who;
        standings.put(who, place, least.is_below(who))?;
        least.put(who)?;
    }
    Ok(standings)
}
