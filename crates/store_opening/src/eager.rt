//! The store that a stored map stands for.

ghost use Rattle.class_defs.specs.Eager.{eager, value, values};
ghost use Rattle.std.specs.Prelude.{IfOk, OnOk, ◌≡◌};
ghost use Rattle.store_opening.specs.Bringing.{with_all, with_one};
ghost use Rattle.thor_value.specs.FiniteMap.{IsSorted, insert};

use class_defs::{Object, Plain, PlainObjects, Roots, Schemas};
use lazy_transform::bring;
use method_eval::View;
use std::alloc::Global;
use thor_value::{NoMemory, Obj, Oref, TryCopy};

/// Each object of a stored map brought up to its epoch.
pub(crate) fn eager(
    alloc: Global,
    stored: &View,
    schemas: &Schemas,
    roots: &Roots,
) -> Result<Plain, NoMemory>
    ensures sorted { IfOk result (λ store. IsSorted store.objects) }
    ensures eager { IsSorted stored.now.objects → IfOk result (λ store. store ≡ eager schemas.now (record { objects = stored.now.objects; epoch = stored.now.epoch; roots = roots.now })) }
{
    Ok(Plain {
        objects: eager_objects(alloc, stored, schemas)?,
        epoch: stored.epoch,
        roots: roots.copy()?,
    })
}

fn eager_objects(alloc: Global, stored: &View, schemas: &Schemas) -> Result<PlainObjects, NoMemory>
    ensures sorted { IfOk result IsSorted }
    ensures values { IsSorted stored.now.objects → IfOk result (λ objects. objects ≡ values schemas.now stored.now.objects stored.now.epoch) }
{
    let mut objects = PlainObjects::new(alloc);
    let names = stored.objects.names(alloc)?;
    put_all(alloc, names.as_slice(), stored, schemas, &mut objects)?;
    Ok(objects)
}

/// Puts the objects of names into a map, brought up.
fn put_all(
    alloc: Global,
    names: &[Oref],
    stored: &View,
    schemas: &Schemas,
    objects: &mut PlainObjects,
) -> Result<(), NoMemory>
    ensures sorted { IsSorted objects.old → OnOk result (IsSorted objects.new) }
    ensures put { OnOk result (objects.new ≡ with_all schemas.now stored.now.objects stored.now.epoch objects.old names.now) }
{
    for oref in names {
        put_brought(alloc, *oref, stored, schemas, objects)?;
    }
    Ok(())
}

/// Puts the object of a name into a map, brought up.
fn put_brought(
    alloc: Global,
    oref: Oref,
    stored: &View,
    schemas: &Schemas,
    objects: &mut PlainObjects,
) -> Result<(), NoMemory>
    ensures sorted { IsSorted objects.old → OnOk result (IsSorted objects.new) }
    ensures put { OnOk result (objects.new ≡ with_one schemas.now stored.now.objects stored.now.epoch objects.old oref) }
{
    match stored.objects.get(oref) {
        Some(obj) => put(objects, oref, brought(alloc, obj, stored, schemas)?),
        None => Ok(()),
    }
}

/// Puts an object into a map.
fn put(objects: &mut PlainObjects, oref: Oref, object: Object) -> Result<(), NoMemory>
    ensures sorted { IsSorted objects.old → OnOk result (IsSorted objects.new) }
    ensures put { OnOk result (objects.new ≡ insert objects.old oref object) }
{
    objects.insert(oref, object)
}

fn brought(alloc: Global, obj: &Obj, stored: &View, schemas: &Schemas) -> Result<Object, NoMemory>
    ensures { IfOk result (λ object. object ≡ value schemas.now stored.now.objects stored.now.epoch obj.now) }
{
    let Obj { class, fields, .. } = bring(alloc, obj, stored, schemas, stored.epoch)?;
    Ok(Object { class, fields })
}
