ghost use Rattle.std.specs.Prelude.{◌≡◌, ◌<◌, ◌^◌, map, max, zero, slice_get, unwrap_or, drop, is_some, if◌then◌else◌, ◌↔◌, IsTrue, IfOk};
ghost use Rattle.std.specs.Option.{option_copied};
ghost use Rattle.class_defs.specs.Applied as spec;
ghost use Rattle.class_defs.specs.Applied.{applied, highest, next_number};

use class_defs::{
    Class, ClassUpgrade, Classes, Epochs, Field, FieldUpgrade, Fields, Schema, Upgrade,
};
use std::alloc::Global;
use thor_value::{NoMemory, TryCopy};

/// What an upgrade says of a class, if it names it.
pub fn said_of<'a>(upgrade: &'a Upgrade, class: &Class) -> Option<&'a ClassUpgrade>
    ensures { option_copied result ≡ spec.said_of upgrade.now class.now }
{
    upgrade
        .classes
        .as_slice()
        .iter()
        .find(|said| said.name.text.is(&class.name.text))
}

/// A new field, without its expression.
fn new_field(field: &FieldUpgrade) -> Result<Field, NoMemory>
    ensures { IfOk result (λ made. made ≡ spec.new_field field.now) }
{
    let type_name = field.type_name.copy()?;
    let name = field.name.copy()?;
    Ok(Field { type_name, name })
}

/// New fields, without their expressions.
fn new_fields(alloc: Global, fields: &[FieldUpgrade]) -> Result<Fields, NoMemory>
    ensures { IfOk result (λ made. made ≡ map spec.new_field fields.now) }
{
    let mut made = Fields::new(alloc);
    for field in fields {
        made.push(new_field(field)?)?;
    }
    Ok(made)
}

/// A class behind what an upgrade says of it.
fn class_behind(alloc: Global, upgrade: &Upgrade, class: &Class) -> Result<Class, NoMemory>
    ensures { IfOk result (λ behind. behind ≡ spec.class_behind class.now (spec.said_of upgrade.now class.now)) }
{
    match said_of(upgrade, class) {
        None => class.copy(),
        Some(said) => {
            let name = class.name.copy()?;
            let fields = new_fields(alloc, said.fields.as_slice())?;
            let methods = said.methods.copy()?;
            Ok(Class {
                kind: class.kind,
                name,
                fields,
                methods,
            })
        }
    }
}

/// Classes behind an upgrade.
fn classes_behind(alloc: Global, upgrade: &Upgrade, classes: &[Class]) -> Result<Classes, NoMemory>
    ensures { IfOk result (λ behind. behind ≡ spec.classes_behind upgrade.now classes.now) }
{
    let mut behind = Classes::new(alloc);
    for class in classes {
        behind.push(class_behind(alloc, upgrade, class)?)?;
    }
    Ok(behind)
}

/// The greatest of some numbers, 0 where there is none.
fn highest(numbers: &[u32]) -> u32
    ensures { result ≡ highest numbers.now }
{
    let mut found = 0;
    for number in numbers {
        found = found.max(*number);
    }
    found
}

/// The first of some numbers, 0 where there is none.
fn first_or_zero(numbers: &[u32]) -> u32
    ensures { result ≡ unwrap_or (slice_get numbers.now 0) zero }
{
    match numbers.first() {
        Some(number) => *number,
        None => 0,
    }
}

/// The numbers behind the first.
fn behind_first(numbers: &[u32]) -> &[u32]
    ensures { result.now ≡ drop 1 numbers.now }
{
    match numbers.split_first() {
        Some((_, rest)) => rest,
        None => numbers,
    }
}

/// The number of the last upgrade that names a class, behind this one.
fn number_behind(upgrade: &Upgrade, number: u32, class: &Class, before: u32) -> u32
    ensures { result ≡ if is_some (spec.said_of upgrade.now class.now) then number else before }
{
    match said_of(upgrade, class) {
        Some(_) => number,
        None => before,
    }
}

/// For each class the number of the last upgrade that names it, behind this one.
fn numbers_behind(
    alloc: Global,
    upgrade: &Upgrade,
    number: u32,
    classes: &[Class],
    upgraded: &[u32],
) -> Result<Epochs, NoMemory>
    ensures { IfOk result (λ numbers. numbers ≡ spec.numbers_behind upgrade.now number classes.now upgraded.now) }
{
    let mut numbers = Epochs::new(alloc);
    let mut rest = upgraded;
    for class in classes {
        numbers.push(number_behind(upgrade, number, class, first_or_zero(rest)))?;
        rest = behind_first(rest);
    }
    Ok(numbers)
}

/// Whether there is a number for one more upgrade, as `apply` and the check ask for it.
pub fn has_next_number(schema: &Schema) -> bool
    ensures { IsTrue result ↔ (next_number schema.now.upgraded < 2 ^ 32) }
{
    highest(schema.upgraded.as_slice()) < u32::MAX
}

/// The schema behind an upgrade.
#[tactic(auto, unfolding(class_defs::specs::Applied::applied))]
pub fn apply(alloc: Global, schema: &Schema, upgrade: &Upgrade) -> Result<Schema, NoMemory>
    requires few_upgrades { next_number schema.now.upgraded < 2 ^ 32 }
    ensures { IfOk result (λ behind. behind ≡ applied schema.now upgrade.now) }
{
    let before = schema.upgraded.as_slice();
    let number = highest(before) + 1;
    let classes = classes_behind(alloc, upgrade, schema.classes.as_slice())?;
    let upgraded = numbers_behind(alloc, upgrade, number, schema.classes.as_slice(), before)?;
    let roots = schema.roots.copy()?;
    Ok(Schema {
        classes,
        upgraded,
        roots,
    })
}
