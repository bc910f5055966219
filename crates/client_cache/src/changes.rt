//! What a page makes of the copies in its slots.

ghost use Rattle.std.specs.Prelude.{◌≡◌, ◌<◌, ◌≤◌, ℕ, nat_eq, cond, length};
ghost use Rattle.client_cache.specs.Changes.{change_in};
ghost use Rattle.client_cache.specs.declared.changes.Change.TheVariants.{Gone, Same};

use std::marker::Model;
use std::mem;
use thor_value::Obj;

/// What a page makes of the copy in a slot.
#[derive(Drop)]
pub enum Change {
    /// The page has the object that the copy is.
    Same,
    /// The page has no object there.
    Gone,
    /// The page has this object.
    Other(Obj),
}

/// What a page makes of the copies in its twelve slots.
#[derive(Drop)]
pub struct Changes {
    changes: Vec<Change>,
}

impl Model for Changes {
    ghost use Rattle.std.specs.Prelude.{List, ◌≡◌, length};
    ghost use Rattle.client_cache.specs.declared.changes.Change.{Change};

    ghost Value = { List Change };

    ghost view = { λ c. c.changes.items };

    ghost invariant = { λ c. length c.changes.items ≡ 12 };
}

impl Changes {
    /// These changes, where they are of twelve slots.
    pub fn of_all(changes: Vec<Change>) -> Changes
        requires { length changes.items ≡ 12 }
        ensures { result ≡ changes.items }
    {
        Changes { changes }
    }

    /// Takes the change out of a slot.
    pub fn take(&mut self, slot: u8) -> Change
        requires { slot < 12 }
        ensures change { result ≡ change_in self.old slot }
        ensures others { (s : ℕ) → change_in self.new s ≡ cond (nat_eq slot s) Same (change_in self.old s) }
    {
        match self.changes.get_mut(usize::from(slot)) {
            Some(change) => mem::replace(change, Change::Same),
            None => Change::Gone,
        }
    }

    /// There are twelve slots.
    pub fn within(&self)
        ensures { (s : ℕ) → 12 ≤ s → change_in self.now s ≡ Gone }
    {
        let _count = self.changes.len();
    }
}
