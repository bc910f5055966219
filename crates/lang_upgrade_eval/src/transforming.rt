ghost use Rattle.std.specs.Prelude.{◌≡◌, ℕ, IfOk, find, is_some, map};
ghost use Rattle.std.specs.Option.{option_copied};
ghost use Rattle.std.specs.Str.{bytes_eq};
ghost use Rattle.thor_value.specs.FiniteMap.{get};
ghost use Rattle.class_defs.specs.Objects.{fitted_or_beginning};
ghost use Rattle.class_defs.specs.Types.{class_named, class_or_word, type_named};
ghost use Rattle.class_defs.specs.declared.types.ExprType.TheVariants as type;
ghost use Rattle.class_defs.specs.Upgrades.{tf_value, transformed, upgrade_of};

use crate::field_values::{fitted_or_beginning, tf_value};
use class_defs::{
    ClassUpgrade, Classes, ExprType, FieldUpgrades, Name, Object, PlainObjects, TypeName, Upgrade,
};
use std::alloc::Global;
use thor_value::{NoMemory, Sequence, Value, Values};

fn same_text(first: &Name, second: &Name) -> bool
    ensures { result ≡ bytes_eq first.now.text second.now.text }
{
    first.text.is(&second.text)
}

/// What an upgrade says of a class of this name.
fn said_of<'a>(upgrade: &'a Upgrade, name: &Name) -> Option<&'a ClassUpgrade>
    ensures { option_copied result ≡ find (λ k. bytes_eq k.name.text name.now.text) upgrade.now.classes }
{
    let said = upgrade.classes.as_slice();
    said.iter().find(|said| same_text(&said.name, name))
}

/// What an upgrade says of a class with this number, if it names it.
pub fn upgrade_of<'a>(
    classes: &Classes,
    upgrade: &'a Upgrade,
    class: u16,
) -> Option<&'a ClassUpgrade>
    ensures { option_copied result ≡ upgrade_of classes.now upgrade.now class }
{
    match classes.get(class as usize) {
        Some(class) => said_of(upgrade, &class.name),
        None => None,
    }
}

/// The place of the first class with this name.
fn class_place(classes: &Classes, name: &Name) -> Option<usize>
    ensures { result ≡ class_named classes.now name.now.text }
{
    let classes = classes.as_slice();
    classes
        .iter()
        .position(|class| same_text(&class.name, name))
}

/// Whether there is a class with this name.
fn is_class(classes: &Classes, name: &Name) -> bool
    ensures { result ≡ is_some (class_named classes.now name.now.text) }
{
    class_place(classes, name).is_some()
}

/// The name, where it is one; else null.
fn name_or_null(value: Option<Value>) -> Value
    ensures { (c : ℕ) → result ≡ fitted_or_beginning (type.Class c) value }
{
    match value {
        Some(Value::Ref(oref)) => Value::Ref(oref),
        _ => Value::Null,
    }
}

/// A value for a field whose type a word names; the one with which such a field begins, where there is none or it is of
/// a wrong kind.
fn value_for_word(classes: &Classes, word: &Name, value: Option<Value>) -> Value
    ensures { result ≡ fitted_or_beginning (class_or_word word.now.text (class_named classes.now word.now.text)) value }
{
    if is_class(classes, word) {
        name_or_null(value)
    } else if word.text.bytes() == b"text".as_slice() {
        fitted_or_beginning(ExprType::Text, value)
    } else {
        fitted_or_beginning(ExprType::Untold, value)
    }
}

/// A value for a field of a type; the one with which such a field begins, where there is none or it is of a wrong kind.
fn value_for(classes: &Classes, type_name: &TypeName, value: Option<Value>) -> Value
    ensures { result ≡ fitted_or_beginning (type_named classes.now type_name.now) value }
{
    match type_name {
        TypeName::Int { line: _ } => fitted_or_beginning(ExprType::Int, value),
        TypeName::Class { name } => value_for_word(classes, name, value),
    }
}

/// The fields that an object gets, whose expressions read the objects as they were.
fn upgraded_fields(
    alloc: Global,
    old: &Classes,
    new: &Classes,
    objects: &PlainObjects,
    object: &Object,
    fields: &FieldUpgrades,
) -> Result<Values, NoMemory>
    ensures { IfOk result (λ values. values ≡ map (λ f. fitted_or_beginning (type_named new.now f.type_name) (tf_value old.now (get objects.now) object.now f.value)) fields.now) }
{
    let mut values = Sequence::new(alloc);
    for field in fields.as_slice() {
        let value = tf_value(old, objects, object, &field.value);
        values.push(value_for(new, &field.type_name, value))?;
    }
    Ok(values)
}

/// The object behind what an upgrade says of its class: each new field has the value of its expression, and all
/// expressions read the objects as they were. It stays as it is where the upgrade doesn't name its class.
pub fn transformed(
    alloc: Global,
    old: &Classes,
    new: &Classes,
    objects: &PlainObjects,
    object: Object,
    said: Option<&ClassUpgrade>,
) -> Result<Object, NoMemory>
    ensures { IfOk result (λ made. made ≡ transformed old.now new.now (get objects.now) object (option_copied said.entry)) }
{
    match said {
        Some(said) => Ok(Object {
            class: object.class,
            fields: upgraded_fields(alloc, old, new, objects, &object, &said.fields)?,
        }),
        None => Ok(object),
    }
}
