//! Whether objects have values of the kinds of their classes.

ghost use Rattle.class_defs.specs.Epochs.{classes_of};
ghost use Rattle.class_defs.specs.Ownership.{type_at};
ghost use Rattle.class_defs.specs.Rules as rules;
ghost use Rattle.store_check.specs.Numbers.{HasNumbers};
ghost use Rattle.store_check.specs.Tests.{field_fits, fields_fit, is_counted, is_of_class, kinds_fit, numbered, root_fits, value_fits};
ghost use Rattle.std.specs.Option.{option_copied};
ghost use Rattle.std.specs.Prelude.{[], length, slice_get, true, unwrap_or, ◌≡◌, ◌≤◌};

use class_defs::{Class, Classes, ExprType, Root, Schemas, UpgradedSchemas, type_named};
use lang_upgrade_eval::schema_at;
use thor_value::{Obj, Oref, OrefMap, Value};

/// The most classes of a schema: a class has a number of 16 bits.
const CLASSES: usize = 65_536;

/// Whether classes and epochs have numbers: at most 2^16 classes in each epoch, and fewer than 2^32 epochs.
#[tactic(auto, using(crate::proofs::Numbered::has_numbers))]
pub(crate) fn has_numbers(schemas: &Schemas) -> bool
    ensures { result ≡ true → HasNumbers schemas.now }
{
    if schemas.first.classes.len() > CLASSES || u32::try_from(schemas.upgraded.len()).is_err() {
        return false;
    }
    has_numbered_classes(&schemas.upgraded)
}

/// Whether each epoch behind the first has at most 2^16 classes.
fn has_numbered_classes(upgraded: &UpgradedSchemas) -> bool
    ensures { result ≡ numbered upgraded.now }
{
    let mut numbered = true;
    for epoch in upgraded.as_slice() {
        if epoch.schema.classes.len() > CLASSES {
            numbered = false;
        }
    }
    numbered
}

/// How many upgrades there are.
pub(crate) fn epoch_of(schemas: &Schemas) -> u32
    requires { HasNumbers schemas.now }
    ensures { result ≡ length schemas.now.upgraded }
{
    schemas.upgraded.len() as u32
}

/// Whether a class is one of parts. A class keeps its kind through all upgrades.
pub(crate) fn is_part(schemas: &Schemas, kind: ExprType) -> bool
    ensures { result ≡ rules.is_part (classes_of schemas.now 0) kind }
{
    method_check::is_part(&schemas.first.classes, kind)
}

/// The classes of an epoch; nothing past the last one.
fn classes_at(schemas: &Schemas, epoch: u32) -> Option<&Classes>
    requires { HasNumbers schemas.now }
    ensures classes { unwrap_or (option_copied result) [] ≡ classes_of schemas.now epoch }
    ensures numbered { length (unwrap_or (option_copied result) []) ≤ 65536 }
{
    match schema_at(schemas, epoch) {
        Some(schema) => Some(&schema.classes),
        None => None,
    }
}

/// The class of an object, in the epoch in which the object was written.
fn class_at<'a>(classes: &'a Classes, obj: &Obj) -> Option<&'a Class>
    ensures { option_copied result ≡ slice_get classes.now obj.now.class }
{
    classes.get(usize::from(obj.class))
}

/// The type of a field of an object, by the classes of the epoch in which the object was written; nothing where
/// there is no such field.
pub(crate) fn type_at(schemas: &Schemas, obj: &Obj, field: usize) -> Option<ExprType>
    requires { HasNumbers schemas.now }
    ensures { result ≡ type_at (classes_of schemas.now obj.now.ver) obj.now.class field }
{
    let classes = classes_at(schemas, obj.ver)?;
    let class = class_at(classes, obj)?;
    let declared = class.fields.get(field)?;
    Some(type_named(classes, &declared.type_name))
}

/// Whether a name has an object of a class.
fn is_of_class(objects: &OrefMap<Obj>, class: u16, oref: Oref) -> bool
    ensures { result ≡ is_of_class objects.now class oref }
{
    match objects.get(oref) {
        Some(obj) => obj.class == class,
        None => false,
    }
}

/// Whether a value is of a type, and a reference names an object of just that class.
fn value_fits(objects: &OrefMap<Obj>, kind: ExprType, value: Value) -> bool
    ensures { result ≡ value_fits objects.now kind value }
{
    match (kind, value) {
        (ExprType::Int, Value::Int(_)) => true,
        (ExprType::Text, Value::Text(_)) => true,
        (ExprType::Int, Value::Null) | (ExprType::Text, Value::Null) => false,
        (ExprType::Class(class), Value::Ref(oref)) => is_of_class(objects, class, oref),
        (_, Value::Null) => true,
        (_, Value::Int(_)) | (_, Value::Ref(_)) | (_, Value::Text(_)) => false,
    }
}

/// Whether the field of an object is there, and its value is of its type.
#[tactic(auto, unfolding(crate::specs::Tests::field_fits))]
fn field_fits(objects: &OrefMap<Obj>, schemas: &Schemas, obj: &Obj, field: usize) -> bool
    requires { HasNumbers schemas.now }
    ensures { result ≡ field_fits schemas.now objects.now obj.now field }
{
    match type_at(schemas, obj, field) {
        Some(kind) => match obj.fields.get(field) {
            Some(value) => value_fits(objects, kind, *value),
            None => false,
        },
        None => false,
    }
}

/// Whether all values of an object are of the types of their fields.
#[tactic(auto, using(crate::proofs::Fields::none_so_far, crate::proofs::Fields::one_more))]
fn fields_fit(objects: &OrefMap<Obj>, schemas: &Schemas, obj: &Obj) -> bool
    requires { HasNumbers schemas.now }
    ensures { result ≡ fields_fit schemas.now objects.now obj.now (length obj.now.fields) }
{
    let mut fit = true;
    for field in 0..obj.fields.len() {
        if !field_fits(objects, schemas, obj, field) {
            fit = false;
        }
    }
    fit
}

/// Whether an object is of a class that is there, and has as many values as fields.
#[tactic(auto, unfolding(crate::specs::Tests::is_counted))]
fn is_counted(schemas: &Schemas, obj: &Obj) -> bool
    requires { HasNumbers schemas.now }
    ensures { result ≡ is_counted schemas.now obj.now }
{
    match classes_at(schemas, obj.ver) {
        Some(classes) => match class_at(classes, obj) {
            Some(class) => class.fields.len() == obj.fields.len(),
            None => false,
        },
        None => false,
    }
}

/// Whether an object is of its class, and its references name objects of the declared classes.
pub(crate) fn kinds_fit(objects: &OrefMap<Obj>, schemas: &Schemas, obj: &Obj) -> bool
    requires { HasNumbers schemas.now }
    ensures { result ≡ kinds_fit schemas.now objects.now obj.now }
{
    if is_counted(schemas, obj) {
        fields_fit(objects, schemas, obj)
    } else {
        false
    }
}

/// Whether a root's name has a free object of its class.
pub(crate) fn root_fits(objects: &OrefMap<Obj>, schemas: &Schemas, root: &Root) -> bool
    ensures { result ≡ root_fits schemas.now objects.now root.now }
{
    if is_part(schemas, ExprType::Class(root.class)) {
        false
    } else {
        is_of_class(objects, root.class, root.oref)
    }
}
