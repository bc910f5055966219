ghost use Rattle.std.specs.Prelude.{◌≡◌, ◌++◌, ◌+◌, ◌<◌, ◌^◌, [], ◌∷◌, Some, map, IfOk, MatchOption, OnOk};
ghost use Rattle.std.specs.List.{flat_map};
ghost use Rattle.std.specs.Option.{option_copied};
ghost use Rattle.thor_value.specs.FiniteMap.{get};
ghost use Rattle.class_defs.specs.Eager.{value};
ghost use Rattle.class_defs.specs.Upgrades as upgrades;
ghost use Rattle.lazy_transform.specs.Reads.{named, passed, path_reads, reads, upgrade_reads};
ghost use Rattle.lazy_transform.specs.Walked.{Covers, Gathers, all_read, as_of, classes_in};

use crate::past::Past;
use crate::paths::paths_of_fields;
use class_defs::{ClassUpgrade, Classes, Name, Names, Object, PlainObjects};
use lang_upgrade_eval::{classes_at, field_behind, next_of, object_behind, transformed};
use thor_value::{NoMemory, Obj, Oref, Orefs, TryCopy, Value};

/// The value of a stored object in an epoch, over the objects at hand. The names of all objects that are read for it
/// are put behind those that were looked at before.
#[cycle(raising)]
pub fn raise(past: &Past<'_>, epoch: u32, obj: &Obj, looked: &mut Orefs) -> Result<Object, NoMemory>
    ensures value { IfOk result (λ object. object ≡ value past.now.schemas.now past.now.objects.now epoch obj.now) }
    ensures looked { OnOk result (looked.new ≡ looked.old ++ reads past.now.schemas.now past.now.objects.now epoch obj.now) }
{
    let mut object = Object {
        class: obj.class,
        fields: obj.fields.copy()?,
    };
    let first = obj.ver.min(epoch);
    for before in first..epoch {
        let said = next_of(past.schemas, before, obj.class);
        object = next(past, before, object, said, looked)?;
    }
    Ok(object)
}

/// An object behind what the upgrade that leads on from an epoch says of its class.
#[cycle(raising)]
fn next(
    past: &Past<'_>,
    before: u32,
    object: Object,
    said: Option<&ClassUpgrade>,
    looked: &mut Orefs,
) -> Result<Object, NoMemory>
    requires { before + 1 < 2 ^ 32 }
    ensures value { IfOk result (λ after. after ≡ upgrades.transformed (classes_in past.now before) (classes_in past.now (before + 1)) (as_of past.now before) object (option_copied said.entry)) }
    ensures looked { OnOk result (looked.new ≡ looked.old ++ all_read past.now before (upgrade_reads (classes_in past.now before) (as_of past.now before) object (option_copied said.entry))) }
{
    match said {
        Some(said) => {
            let paths = paths_of_fields(past.alloc, &said.fields)?;
            let parts = gather(past, before, &object, paths.as_slice(), looked)?;
            let none = Classes::new(past.alloc);
            let old = classes_at(past.schemas, before, &none);
            let new = classes_at(past.schemas, before + 1, &none);
            transformed(past.alloc, old, new, &parts, object, Some(said))
        }
        None => Ok(object),
    }
}

/// The objects that paths read, with their values in an epoch.
#[cycle(raising)]
fn gather(
    past: &Past<'_>,
    before: u32,
    object: &Object,
    paths: &[&Names],
    looked: &mut Orefs,
) -> Result<PlainObjects, NoMemory>
    ensures parts { IfOk result (λ parts. Covers (flat_map (path_reads (classes_in past.now before) (as_of past.now before) object.now) (map (λ p. p.now) paths.now)) (get parts) (as_of past.now before)) }
    ensures looked { OnOk result (looked.new ≡ looked.old ++ all_read past.now before (flat_map (path_reads (classes_in past.now before) (as_of past.now before) object.now) (map (λ p. p.now) paths.now))) }
{
    let mut parts = PlainObjects::new(past.alloc);
    for names in paths {
        walk(past, before, object, names, &mut parts, looked)?;
    }
    Ok(parts)
}

/// Puts the objects that a path reads among the parts.
#[cycle(raising)]
fn walk(
    past: &Past<'_>,
    before: u32,
    object: &Object,
    names: &Names,
    parts: &mut PlainObjects,
    looked: &mut Orefs,
) -> Result<(), NoMemory>
    ensures { OnOk result (Gathers past.now before (path_reads (classes_in past.now before) (as_of past.now before) object.now names.now) parts.old parts.new looked.old looked.new) }
{
    match names.as_slice().split_first() {
        Some((name, rest)) => {
            let none = Classes::new(past.alloc);
            let old = classes_at(past.schemas, before, &none);
            let value = field_behind(old, Some(object), name);
            follow(past, before, value, rest, parts, looked)
        }
        None => Ok(()),
    }
}

/// Puts the objects that a path goes on through from a value among the parts.
#[cycle(raising)]
fn follow(
    past: &Past<'_>,
    before: u32,
    value: Option<Value>,
    names: &[Name],
    parts: &mut PlainObjects,
    looked: &mut Orefs,
) -> Result<(), NoMemory>
    ensures { OnOk result (Gathers past.now before (passed (classes_in past.now before) (as_of past.now before) value names.now) parts.old parts.new looked.old looked.new) }
{
    let none = Classes::new(past.alloc);
    let old = classes_at(past.schemas, before, &none);
    let mut reached = value;
    for name in names {
        look(past, before, &reached, parts, looked)?;
        reached = field_behind(old, object_behind(parts, &reached), name);
    }
    Ok(())
}

/// The object that a value names.
fn named(value: &Option<Value>) -> Option<Oref>
    ensures { MatchOption result (named value.now ≡ []) (λ part. named value.now ≡ part ∷ []) }
{
    match value {
        Some(Value::Ref(part)) => Some(*part),
        Some(Value::Int(_)) | Some(Value::Null) | Some(Value::Text(_)) | None => None,
    }
}

/// Puts the object that a value names among the parts, where it is at hand.
#[cycle(raising)]
fn look(
    past: &Past<'_>,
    before: u32,
    value: &Option<Value>,
    parts: &mut PlainObjects,
    looked: &mut Orefs,
) -> Result<(), NoMemory>
    ensures { OnOk result (Gathers past.now before (named value.now) parts.old parts.new looked.old looked.new) }
{
    match named(value) {
        Some(part) => look_at(past, before, part, parts, looked),
        None => Ok(()),
    }
}

/// Puts an object among the parts, where it is at hand.
#[cycle(raising)]
fn look_at(
    past: &Past<'_>,
    before: u32,
    part: Oref,
    parts: &mut PlainObjects,
    looked: &mut Orefs,
) -> Result<(), NoMemory>
    ensures { OnOk result (Gathers past.now before (part ∷ []) parts.old parts.new looked.old looked.new) }
{
    looked.push(part)?;
    match past.objects.get(part) {
        Some(obj) => {
            let object = raise(past, before, obj, looked)?;
            parts.insert(part, object)
        }
        None => Ok(()),
    }
}
