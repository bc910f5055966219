//! A set of names of objects.

ghost use Rattle.std.specs.Prelude.{◌≡◌, IfOk, OnOk, OnErr};
ghost use Rattle.thor_value.specs.FiniteMap.{add, empty, has, keys, len as name_count};

use crate::lists::Orefs;
use crate::memory::NoMemory;
use crate::names::Oref;
use crate::searching::{comes_last, place_of};
use crate::sequence::Sequence;
use std::alloc::Global;
use std::marker::Model;

/// A finite set of names of objects, which contracts see as such. The names stand in one piece of memory, rising: one that
/// comes behind the others is put at the end, without a search.
#[derive(Drop)]
pub struct OrefSet {
    names: Vec<Oref>,
}

impl Model for OrefSet {
    ghost use Rattle.thor_value.specs.FiniteMap.{Set, code, coded_unit};
    ghost use Rattle.thor_value.specs.Names.{coded_oref, oref_cmp};
    ghost use Rattle.thor_value.specs.Rising.{Rise, set_of};

    ghost Value = { Set oref_cmp };

    ghost coded = { code coded_oref coded_unit };

    ghost view = { λ s. set_of s.names.items };

    ghost invariant = { λ s. Rise s.names.items };
}

impl OrefSet {
    /// No name. It takes no memory.
    pub fn new(alloc: Global) -> OrefSet
        ensures { result ≡ empty }
    {
        OrefSet {
            names: Vec::new(alloc),
        }
    }

    /// How many names there are.
    #[tactic(auto, using(crate::proofs::Rising::long))]
    pub fn len(&self) -> usize
        ensures { result ≡ name_count self.now }
    {
        self.names.len()
    }

    /// Whether a name is one of them. One that comes behind the last isn't, without a search.
    #[tactic(auto, using(crate::proofs::Rising::having))]
    pub fn contains(&self, oref: Oref) -> bool
        ensures { result ≡ has self.now oref }
    {
        if comes_last(self.names.as_slice(), oref) {
            return false;
        }
        match place_of(self.names.as_slice(), oref) {
            Ok(_) => true,
            Err(_) => false,
        }
    }

    /// Adds a name, which is searched for where it doesn't come behind the last one. After `NoMemory` nothing has changed.
    #[tactic(auto, using(crate::proofs::Rising::added))]
    pub fn insert(&mut self, oref: Oref) -> Result<(), NoMemory>
        ensures ok { OnOk result (self.new ≡ add self.old oref) }
        ensures err { OnErr result (self.new ≡ self.old) }
    {
        if comes_last(self.names.as_slice(), oref) {
            self.names.push(oref)?;
            return Ok(());
        }
        match place_of(self.names.as_slice(), oref) {
            Ok(_) => {}
            Err(at) => self.names.insert(at, oref)?,
        }
        Ok(())
    }

    /// A copy of the names, rising.
    #[tactic(auto, using(crate::proofs::Rising::keys_are))]
    pub fn names(&self, alloc: Global) -> Result<Orefs, NoMemory>
        ensures { IfOk result (λ names. names ≡ keys self.now) }
    {
        let names: Vec<Oref> = self.names.iter().copied().collect(alloc)?;
        Ok(Sequence::from_vec(names))
    }

    /// The names, rising, in the same memory.
    #[tactic(auto, using(crate::proofs::Rising::keys_are))]
    pub fn into_names(self) -> Orefs
        ensures { result ≡ keys self }
    {
        let OrefSet { names } = self;
        Sequence::from_vec(names)
    }
}
