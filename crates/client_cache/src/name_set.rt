ghost use Rattle.std.specs.BTreeMap.{is_at};
ghost use Rattle.std.specs.BTreeSet.{insert_key};
ghost use Rattle.std.specs.List.{filter, list_any};
ghost use Rattle.std.specs.Prelude.{◌≡◌, ◌<◌, ◌↔◌, ◌++◌, ◌∷◌, [], cond, false, true, length, IfSome, IsTrue, MatchOption, OnErr, OnOk, nat_eq, not, slice_get};
ghost use Rattle.thor_value.specs.Names.{oref_cmp};
ghost use Rattle.thor_value.specs.declared.names.Oref.{Oref};
ghost use Rattle.client_cache.specs.Pages.{same_name};

use std::alloc::Global;
use std::marker::Model;
use thor_value::{NoMemory, Oref, Orefs, comes_last, place_of};

/// Names of objects, which contracts see as a list that rises. They stand in one piece of memory, which is kept as names
/// come and go.
#[derive(Drop)]
pub struct NameSet {
    names: Vec<Oref>,
}

impl Model for NameSet {
    ghost use Rattle.std.specs.Prelude.{List};
    ghost use Rattle.thor_value.specs.Rising.{Rise};
    ghost use Rattle.thor_value.specs.declared.names.Oref.{Oref};

    ghost Value = { List Oref };

    ghost view = { λ s. s.names.items };

    ghost invariant = { λ s. Rise s.names.items };
}

impl NameSet {
    /// No name. It takes no memory.
    pub fn new(alloc: Global) -> NameSet
        ensures { result ≡ [] }
    {
        NameSet {
            names: Vec::new(alloc),
        }
    }

    /// Whether there is no name.
    pub fn is_empty(&self) -> bool
        ensures { IsTrue result ↔ (self.now ≡ []) }
    {
        self.names.is_empty()
    }

    /// The name at a place, from 0.
    pub fn at(&self, place: usize) -> Option<Oref>
        ensures { result ≡ slice_get self.now place }
    {
        self.names.get(place).copied()
    }

    /// Adds a name, which is searched for where it doesn't come behind the last one. After `NoMemory` nothing has changed.
    #[tactic(auto, using(crate::proofs::NameLists::put_has))]
    pub fn insert(&mut self, oref: Oref) -> Result<(), NoMemory>
        ensures ok { OnOk result (self.new ≡ insert_key oref_cmp self.old oref) }
        ensures has { OnOk result ((x : Oref) → list_any (is_at (oref_cmp x)) self.new ≡ cond (is_at (oref_cmp oref) x) true (list_any (is_at (oref_cmp x)) self.old)) }
        ensures err { OnErr result (self.new ≡ self.old) }
    {
        if comes_last(self.names.as_slice(), oref) {
            self.names.push(oref)?;
            return Ok(());
        }
        match place_of(self.names.as_slice(), oref) {
            Ok(_) => {}
            Err(at) => self.names.insert(at, oref)?,
        }
        Ok(())
    }

    /// Takes the last name out, where there is one.
    pub fn pop(&mut self) -> Option<Oref>
        ensures removal { MatchOption result ((self.old ≡ []) × (self.new ≡ [])) (λ oref. self.old ≡ self.new ++ oref ∷ []) }
        ensures fewer { IfSome result (λ oref. length self.new < length self.old) }
        ensures left { IfSome result (λ oref. (x : Oref) → list_any (is_at (oref_cmp x)) self.new ≡ cond (is_at (oref_cmp oref) x) false (list_any (is_at (oref_cmp x)) self.old)) }
    {
        self.names.pop()
    }

    /// Takes a name out, where it is there.
    pub fn remove(&mut self, oref: Oref)
        ensures { self.new ≡ filter (λ x. not (same_name oref x)) self.old }
    {
        match place_of(self.names.as_slice(), oref) {
            Ok(at) => {
                self.names.remove(at);
            }
            Err(_) => {}
        }
    }

    /// Drops these names.
    pub fn drop_all(&mut self, orefs: &Orefs)
        ensures { self.new ≡ filter (λ x. not (list_any (λ y. same_name y x) orefs.now)) self.old }
    {
        for oref in orefs.as_slice() {
            self.remove(*oref);
        }
    }

    /// Drops the names of a repository.
    pub fn drop_repo(&mut self, repo: u8)
        ensures { self.new ≡ filter (λ x. not (nat_eq x.repo repo)) self.old }
    {
        self.names.retain(|oref| oref.repo != repo);
    }
}
