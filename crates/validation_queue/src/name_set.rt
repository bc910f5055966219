ghost use Rattle.std.specs.Map.{keys_of};
ghost use Rattle.std.specs.Prelude.{◌≡◌, ◌↔◌, IfOk, IsTrue, None};
ghost use Rattle.validation_queue.specs.Names.{IsInOrder, Rises, all_among, is_among, is_behind, rises_after};

use std::alloc::Global;
use std::marker::Model;
use thor_value::{NoMemory, Obj, Oref, Orefs, Writes};

/// Names of objects in their order, which contracts see as a list.
#[derive(Debug, Drop)]
pub struct NameSet {
    names: Vec<Oref>,
}

impl Model for NameSet {
    ghost use Rattle.std.specs.Prelude.{List};
    ghost use Rattle.thor_value.specs.declared.names.Oref.{Oref};
    ghost use Rattle.validation_queue.specs.Names.{Rises};

    ghost Value = { List Oref };

    ghost view = { λ s. s.names.items };

    ghost invariant = { λ s. Rises s.names.items };
}

impl NameSet {
    /// The set of the names of a list.
    pub fn of_names(alloc: Global, names: &[Oref]) -> Result<NameSet, NoMemory>
        requires { Rises names.now }
        ensures { IfOk result (λ set. set ≡ names.now) }
    {
        let names = Vec::from_slice(alloc, names)?;
        Ok(NameSet { names })
    }

    /// The set of the names that are written.
    pub fn of_writes(alloc: Global, writes: &[(Oref, Obj)]) -> Result<NameSet, NoMemory>
        requires { Rises (keys_of writes.now) }
        ensures { IfOk result (λ set. set ≡ keys_of writes.now) }
    {
        let mut names = Vec::with_capacity(alloc, writes.len())?;
        for write in writes {
            names.push(write.0)?;
        }
        Ok(NameSet { names })
    }

    /// The names in their order.
    pub(crate) fn as_slice(&self) -> &[Oref]
        ensures names { result.now ≡ self.now }
        ensures rise { Rises result.now }
    {
        self.names.as_slice()
    }

    /// Whether the name is in the set.
    pub fn contains(&self, oref: Oref) -> bool
        ensures { result ≡ is_among self.now oref }
    {
        is_one_of(&self.names, oref)
    }
}

/// Whether the name is one of the names, which rise. It looks at a few of them.
pub fn is_one_of(names: &[Oref], oref: Oref) -> bool
    requires { Rises names.now }
    ensures { result ≡ is_among names.now oref }
{
    names.binary_search(&oref).is_ok()
}

/// Whether the names of a request are in order, as a queue asks for: those that it read rise, those
/// that it wrote rise, and it read what it wrote.
pub fn is_in_order(ros: &Orefs, writes: &Writes) -> bool
    ensures { IsTrue result ↔ IsInOrder ros.now (keys_of writes.now) }
{
    let ros = ros.as_slice();
    let writes = writes.as_slice();
    if !names_rise(ros) {
        return false;
    }
    if !writes_rise(writes) {
        return false;
    }
    are_read(ros, writes)
}

/// Whether the name comes behind the last one.
fn is_behind(last: Option<Oref>, name: Oref) -> bool
    ensures { result ≡ is_behind last name }
{
    match last {
        Some(last) => last.cmp(&name).is_lt(),
        None => true,
    }
}

fn names_rise(names: &[Oref]) -> bool
    ensures { result ≡ rises_after None names.now }
{
    let mut last = None;
    for name in names {
        if !is_behind(last, *name) {
            return false;
        }
        last = Some(*name);
    }
    true
}

fn writes_rise(writes: &[(Oref, Obj)]) -> bool
    ensures { result ≡ rises_after None (keys_of writes.now) }
{
    let mut last = None;
    for write in writes {
        if !is_behind(last, write.0) {
            return false;
        }
        last = Some(write.0);
    }
    true
}

/// Whether each name that is written is one of the names, which rise.
fn are_read(names: &[Oref], writes: &[(Oref, Obj)]) -> bool
    requires { Rises names.now }
    ensures { result ≡ all_among names.now (keys_of writes.now) }
{
    for write in writes {
        if !is_one_of(names, write.0) {
            return false;
        }
    }
    true
}
