ghost use Rattle.std.specs.Prelude.{◌≡◌, ◌++◌, ◌∷◌, List, find, not, IfOk, OnOk};
ghost use Rattle.std.specs.Option.{option_copied};
ghost use Rattle.thor_value.specs.FiniteMap.{get, has};
ghost use Rattle.thor_value.specs.declared.names.Oref.{Oref};
ghost use Rattle.class_defs.specs.Eager.{brought, value};
ghost use Rattle.class_defs.specs.Stored.{Stored, in_epoch};
ghost use Rattle.lazy_transform.specs.Reads.{SameOn};
ghost use Rattle.lazy_transform.specs.Wants.{each_once, unseen, wanted};

use crate::past::Past;
use crate::raising::raise;
use crate::wanted::Wanted;
use class_defs::{Object, Schemas};
use method_eval::View;
use std::alloc::Global;
use thor_value::{NoMemory, Obj, Oref, OrefMap, OrefSet, Orefs};

/// Puts a name behind those that were seen, where it isn't among them.
#[tactic(auto, using(std::proofs::Common::append_assoc))]
fn push_unseen(name: Oref, seen: &mut OrefSet, once: &mut Orefs) -> Result<(), NoMemory>
    ensures { OnOk result ((rest : List Oref) → once.new ++ unseen seen.new rest ≡ once.old ++ unseen seen.old (name ∷ rest)) }
{
    if seen.contains(name) {
        return Ok(());
    }
    seen.insert(name)?;
    once.push(name)
}

/// Each of the names once, where it stands first.
fn each_once(alloc: Global, names: &Orefs) -> Result<Orefs, NoMemory>
    ensures { IfOk result (λ once. once ≡ each_once names.now) }
{
    let mut seen = OrefSet::new(alloc);
    let mut once = Orefs::new(alloc);
    for name in names.as_slice() {
        push_unseen(*name, &mut seen, &mut once)?;
    }
    Ok(once)
}

/// The first of the names that the objects at hand lack.
fn first_lacking<'a>(objects: &OrefMap<Obj>, names: &'a Orefs) -> Option<&'a Oref>
    ensures { option_copied result ≡ find (λ z. not (has objects.now z)) names.now }
{
    let names = names.as_slice();
    names.iter().find(|name| !objects.contains(**name))
}

/// What has to be at hand where a stored object is brought up to an epoch: the next object that the upgrades' expressions
/// read and that isn't at hand, or, where all are, all that they read.
///
/// They read in this order: upgrades rise, fields stand as in the upgrade's text, paths go from left to right, and each
/// path from its beginning to its end. A part that lags is brought up first, whole, so what its own expressions read
/// counts as read. Parts at hand are taken as they are stored, whether they are due or not. The names of `All` stand in
/// this order, each once.
///
/// The object's version is at most `epoch` where an upgrade may change it; on any objects whatsoever the answer is this.
/// The reads of transform functions are those of Boyapati and others (OOPSLA 2003); that they read nothing but what the
/// object owns is this project's.
pub fn wants(
    alloc: Global,
    obj: &Obj,
    schemas: &Schemas,
    epoch: u32,
    parts: &View,
) -> Result<Wanted, NoMemory>
    ensures { IfOk result (λ answer. answer ≡ wanted schemas.now parts.now.objects epoch obj.now) }
{
    let past = Past {
        alloc,
        schemas,
        objects: &parts.objects,
    };
    let mut looked = Orefs::new(alloc);
    raise(&past, epoch, obj, &mut looked)?;
    match first_lacking(&parts.objects, &looked) {
        Some(part) => Ok(Wanted::Part(*part)),
        None => Ok(Wanted::All(each_once(alloc, &looked)?)),
    }
}

/// A stored object brought up to an epoch: its value there, over the objects at hand as they are stored, written in that
/// epoch.
///
/// Where `wants` answers `All` and a stored map of that epoch has the same objects at these names, this is the object that
/// is written where the map's object is brought up, and what the map stands for is as it was (`transforms_are_unseen` of
/// `law_lazy_upgrade`). On any other objects it returns as well: what isn't at hand counts as null on a path, and a value of a
/// wrong kind as the one with which its field begins.
pub fn bring(
    alloc: Global,
    obj: &Obj,
    parts: &View,
    schemas: &Schemas,
    to: u32,
) -> Result<Obj, NoMemory>
    ensures value { IfOk result (λ made. made ≡ in_epoch to (value schemas.now parts.now.objects to obj.now)) }
    ensures stored { (L : Stored) → (names : List Oref) → L.epoch ≡ to
        → wanted schemas.now parts.now.objects to obj.now ≡ Wanted.All names → SameOn names (get parts.now.objects) (get L.objects)
        → IfOk result (λ made. made ≡ brought schemas.now L obj.now) }
{
    let past = Past {
        alloc,
        schemas,
        objects: &parts.objects,
    };
    let mut looked = Orefs::new(alloc);
    let Object { class, fields } = raise(&past, to, obj, &mut looked)?;
    Ok(Obj {
        class,
        ver: to,
        fields,
    })
}
