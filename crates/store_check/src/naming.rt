//! By which fields objects are named.

ghost use Rattle.class_defs.specs.Stored.{Objects};
ghost use Rattle.store_check.specs.Naming.{is_kept, is_owned_field, joined, namings, noted, noted_fields, noted_name, noted_names, noted_object, sole};
ghost use Rattle.store_check.specs.Numbers.{HasNumbers};
ghost use Rattle.std.specs.Option.{option_copied};
ghost use Rattle.std.specs.Prelude.{IfOk, OnOk, length, ◌&&◌, ◌==◌, ◌≡◌};
ghost use Rattle.thor_value.specs.FiniteMap.{get, keys};

use crate::kinds::{is_part, type_at};
use class_defs::Schemas;
use std::alloc::Global;
use thor_value::{NoMemory, Obj, Oref, OrefMap, Value};

/// How fields name an object.
#[derive(Clone, Copy, Debug, PartialEq, Eq)]
pub enum Naming {
    /// This field of this object alone does; whether that is an owned field in the object's own repository.
    Once { by: Oref, field: usize, owned: bool },
    /// More than one field does.
    Several,
}

/// The one that alone names an object, by an owned field in the same repository.
pub(crate) fn sole(naming: Option<&Naming>) -> Option<Oref>
    ensures { result ≡ sole (option_copied naming.entry) }
{
    match naming {
        Some(
            Naming::Once {
                by,
                field: _,
                owned,
            },
        ) => { if *owned { Some(*by) } else { None } }
        Some(Naming::Several) | None => None,
    }
}

/// Whether an object is named at most once, by an owned field in its repository.
pub(crate) fn is_kept(naming: Option<&Naming>) -> bool
    ensures { result ≡ is_kept (option_copied naming.entry) }
{
    match naming {
        None => true,
        Some(
            Naming::Once {
                by: _,
                field: _,
                owned,
            },
        ) => *owned,
        Some(Naming::Several) => false,
    }
}

/// Whether a field of an object is an owned one.
#[tactic(auto, unfolding(crate::specs::Naming::is_owned_field))]
fn is_owned_field(schemas: &Schemas, obj: &Obj, field: usize) -> bool
    requires { HasNumbers schemas.now }
    ensures { result ≡ is_owned_field schemas.now obj.now field }
{
    match type_at(schemas, obj, field) {
        Some(kind) => is_part(schemas, kind),
        None => false,
    }
}

/// One more field that names an object.
fn joined(by: Oref, field: usize, owned: bool, before: Option<&Naming>) -> Naming
    ensures { result ≡ joined by field owned (option_copied before.entry) }
{
    match before {
        None => Naming::Once { by, field, owned },
        Some(
            Naming::Once {
                by: other,
                field: place,
                owned: known,
            },
        ) => {
            if by == *other && field == *place {
                Naming::Once {
                    by: *other,
                    field: *place,
                    owned: *known,
                }
            } else {
                Naming::Several
            }
        }
        Some(Naming::Several) => Naming::Several,
    }
}

/// Notes what a field names.
fn note_value(
    schemas: &Schemas,
    oref: Oref,
    obj: &Obj,
    field: usize,
    value: Option<Value>,
    namings: &mut OrefMap<Naming>,
) -> Result<(), NoMemory>
    requires { HasNumbers schemas.now }
    ensures { OnOk result (namings.new ≡ noted schemas.now namings.old oref obj.now field value) }
{
    match value {
        Some(Value::Ref(named)) => {
            let owned = is_owned_field(schemas, obj, field) && oref.repo == named.repo;
            let naming = joined(oref, field, owned, namings.get(named));
            namings.insert(named, naming)
        }
        Some(Value::Int(_)) | Some(Value::Null) | Some(Value::Text(_)) | None => Ok(()),
    }
}

/// Notes what an object names.
#[tactic(auto, using(crate::proofs::Noting::noted_none, crate::proofs::Noting::noted_more))]
fn note_fields(
    schemas: &Schemas,
    oref: Oref,
    obj: &Obj,
    namings: &mut OrefMap<Naming>,
) -> Result<(), NoMemory>
    requires { HasNumbers schemas.now }
    ensures { OnOk result (namings.new ≡ noted_fields schemas.now namings.old oref obj.now (length obj.now.fields)) }
{
    for field in 0..obj.fields.len() {
        let value = obj.fields.get(field).copied();
        note_value(schemas, oref, obj, field, value, namings)?;
    }
    Ok(())
}

/// Notes what the object of a name names, where there is one.
#[tactic(auto, unfolding(crate::specs::Naming::noted_name))]
fn note_name(
    objects: &OrefMap<Obj>,
    schemas: &Schemas,
    oref: Oref,
    namings: &mut OrefMap<Naming>,
) -> Result<(), NoMemory>
    requires { HasNumbers schemas.now }
    ensures { OnOk result (namings.new ≡ noted_name schemas.now objects.now namings.old oref) }
{
    match objects.get(oref) {
        Some(obj) => note_fields(schemas, oref, obj, namings),
        None => Ok(()),
    }
}

/// How the objects of a map are named, whose names these are.
#[tactic(auto, unfolding(crate::specs::Naming::namings))]
pub(crate) fn namings_of(
    alloc: Global,
    objects: &OrefMap<Obj>,
    schemas: &Schemas,
    names: &[Oref],
) -> Result<OrefMap<Naming>, NoMemory>
    requires numbers { HasNumbers schemas.now }
    requires names { names.now ≡ keys objects.now }
    ensures { IfOk result (λ noted. noted ≡ namings schemas.now objects.now) }
{
    let mut namings = OrefMap::new(alloc);
    for oref in names {
        note_name(objects, schemas, *oref, &mut namings)?;
    }
    Ok(namings)
}
