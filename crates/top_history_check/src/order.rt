ghost use Rattle.std.specs.Prelude.{◌≡◌, IfOk, OnOk, true};
ghost use Rattle.serial_model.specs.Outcomes.{AreInClientOrder};
ghost use Rattle.top_history_check.specs.Order.{IsAbove};
ghost use Rattle.thor_value.specs.FiniteMap.{get, insert};

use serial_model::Did;
use std::alloc::Global;
use std::collections::BTreeMap;
use std::marker::Model;
use thor_value::{NoMemory, Who};

/// The last item of each client, by its number.
#[derive(Drop)]
struct LastItems {
    last: BTreeMap<u8, u32>,
}

impl Model for LastItems {
    ghost use Rattle.std.specs.Ordering.{nat_cmp};
    ghost use Rattle.std.specs.Prelude.{ℕ};
    ghost use Rattle.thor_value.specs.FiniteMap.{Map};

    ghost Value = { Map nat_cmp ℕ };

    ghost view = { λ l. record { pairs = l.last.entries } };
}

impl LastItems {
    /// Whether an item comes behind the last one of its client.
    fn is_below(&self, who: Who) -> bool
        ensures { result ≡ true → IsAbove (get self.now who.client) who.index }
    {
        match self.last.get(&who.client) {
            Some(last) => *last < who.index,
            None => true,
        }
    }

    fn put(&mut self, who: Who) -> Result<(), NoMemory>
        ensures { OnOk result (self.new ≡ insert self.old who.client who.index) }
    {
        self.last.insert(who.client, who.index)?;
        Ok(())
    }
}

/// Whether a history is in client order: each client's entries are of items with rising numbers.
pub fn is_in_client_order(alloc: Global, history: &[Did]) -> Result<bool, NoMemory>
    ensures { IfOk result (λ is. is ≡ true → AreInClientOrder history.now) }
{
    let mut last = LastItems {
        last: BTreeMap::new(alloc),
    };
    for place in 0..history.len() {
        let who = history[place].who;
        if !last.is_below(who) {
            return Ok(false);
        }
        last.put(who)?;
    }
    Ok(true)
}
