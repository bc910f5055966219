//! Names of objects, and objects by their names.

ghost use Rattle.spec_history.specs.Requests.{has_read, has_written, is_upgrade, written};
ghost use Rattle.std.specs.List.{list_any};
ghost use Rattle.std.specs.Map.{keys_of};
ghost use Rattle.std.specs.Prelude.{IfOk, OnOk, ◌++◌, ◌≡◌};
ghost use Rattle.thor_value.specs.FiniteMap.{add, overwrite};
ghost use Rattle.thor_value.specs.Names.{same_oref};
ghost use Rattle.model_reading.specs.Tables.{names_in, objects_in};
ghost use Rattle.validation_queue.specs.Clashes.{is_before};
ghost use Rattle.thor_value.specs.Names.{later_of};
ghost use Rattle.repo_refusals.specs.Refusals.{names_of, set_of};

use log_entries::{Kind, Request};
use std::alloc::Global;
use std::cmp::Ordering;
use std::collections::BTreeMap;
use thor_value::{NoMemory, Obj, Oref, TryCopy, Ts};

/// Objects by their names.
pub(crate) type Objects = BTreeMap<Oref, Obj>;

/// Names of objects in their order.
pub(crate) type Names = BTreeMap<Oref, ()>;

/// Puts copies of some objects over others.
pub(crate) fn overwrite(objects: &mut Objects, writes: &[(Oref, Obj)]) -> Result<(), NoMemory>
    ensures { OnOk result (objects_in objects.new ≡ overwrite (objects_in objects.old) writes.now) }
{
    for write in writes {
        objects.insert(write.0, write.1.copy()?)?;
    }
    Ok(())
}

/// The objects that a request wrote, by their names.
pub(crate) fn written(alloc: Global, request: &Request) -> Result<Objects, NoMemory>
    ensures { IfOk result (λ objects. objects_in objects ≡ written request.now) }
{
    let mut objects = BTreeMap::new(alloc);
    overwrite(&mut objects, request.writes.as_slice())?;
    Ok(objects)
}

/// Puts the names of some objects behind others.
pub(crate) fn add_keys(names: &mut Vec<Oref>, objects: &Objects) -> Result<(), NoMemory>
    ensures { OnOk result (names.new.items ≡ names.old.items ++ keys_of objects.now.entries) }
{
    for name in objects.keys() {
        names.push(*name)?;
    }
    Ok(())
}

fn add_name(set: &mut Names, name: Oref) -> Result<(), NoMemory>
    ensures { OnOk result (names_in set.new ≡ add (names_in set.old) name) }
{
    set.insert(name, ())?;
    Ok(())
}

/// Some names in their order.
pub(crate) fn set_of(alloc: Global, names: &[Oref]) -> Result<Names, NoMemory>
    ensures { IfOk result (λ set. names_in set ≡ set_of names.now) }
{
    let mut set = BTreeMap::new(alloc);
    for name in names {
        add_name(&mut set, *name)?;
    }
    Ok(set)
}

/// The names that a request read or wrote, in their order.
pub(crate) fn names_of(alloc: Global, request: &Request) -> Result<Names, NoMemory>
    ensures { IfOk result (λ set. names_in set ≡ names_of request.now) }
{
    let mut names = Vec::from_slice(alloc, request.ros.as_slice())?;
    let objects = written(alloc, request)?;
    add_keys(&mut names, &objects)?;
    set_of(alloc, names.as_slice())
}

/// Whether a name is one of some names.
pub(crate) fn is_one_of(names: &[Oref], oref: Oref) -> bool
    ensures { result ≡ list_any (same_oref oref) names.now }
{
    for name in names {
        if oref.cmp(name).is_eq() {
            return true;
        }
    }
    false
}

/// Whether a request read or created an object.
pub(crate) fn has_read(request: &Request, oref: Oref) -> bool
    ensures { result ≡ has_read request.now oref }
{
    is_one_of(request.ros.as_slice(), oref)
}

/// Whether one of some objects has this name.
fn is_written(writes: &[(Oref, Obj)], oref: Oref) -> bool
    ensures { result ≡ list_any (same_oref oref) (keys_of writes.now) }
{
    for write in writes {
        if oref.cmp(&write.0).is_eq() {
            return true;
        }
    }
    false
}

/// Whether a request wrote or created an object.
#[tactic(auto, using(crate::proofs::Written::written_among))]
pub(crate) fn has_written(request: &Request, oref: Oref) -> bool
    ensures { result ≡ has_written request.now oref }
{
    is_written(request.writes.as_slice(), oref)
}

/// Whether a request is an upgrade's.
pub(crate) fn is_upgrade(request: &Request) -> bool
    ensures { result ≡ is_upgrade request.now }
{
    match &request.kind {
        Kind::App | Kind::Transform => false,
        Kind::Upgrade { .. } => true,
    }
}

pub(crate) fn is_before(first: Ts, second: Ts) -> bool
    ensures { result ≡ is_before first second }
{
    first.cmp(&second).is_lt()
}

pub(crate) fn later_of(first: Ts, second: Ts) -> Ts
    ensures { result ≡ later_of first second }
{
    match first.cmp(&second) {
        Ordering::Greater => first,
        _ => second,
    }
}
