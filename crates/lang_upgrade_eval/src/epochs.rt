ghost use Rattle.std.specs.Prelude.{◌≡◌, ◌≤◌, List, [], option_map};
ghost use Rattle.std.specs.Option.{option_copied};
ghost use Rattle.thor_value.specs.declared.values.Value.{Value};
ghost use Rattle.class_defs.specs.Epochs.{classes_of, next_of, schema_at};
ghost use Rattle.class_defs.specs.Levels as spec;

use crate::transforming::upgrade_of;
use class_defs::{ClassUpgrade, Classes, Schema, Schemas};

/// The schema of an epoch; nothing past the last one.
pub fn schema_at(schemas: &Schemas, epoch: u32) -> Option<&Schema>
    ensures { option_map (λ schema. schema.now) result ≡ schema_at schemas.now epoch }
{
    if epoch == 0 {
        return Some(&schemas.first);
    }
    match schemas.upgraded.get((epoch - 1) as usize) {
        Some(upgraded) => Some(&upgraded.schema),
        None => None,
    }
}

/// The classes of an epoch. Past the last one there are none: then it lends what was handed in.
pub fn classes_at<'a>(schemas: &'a Schemas, epoch: u32, none: &'a Classes) -> &'a Classes
    requires { none.now ≡ [] }
    ensures { result.now ≡ classes_of schemas.now epoch }
{
    match schema_at(schemas, epoch) {
        Some(schema) => &schema.classes,
        None => none,
    }
}

/// What the upgrade that leads on from an epoch says of the class with this number, if it names it.
pub fn next_of(schemas: &Schemas, epoch: u32, class: u16) -> Option<&ClassUpgrade>
    ensures { option_copied result ≡ next_of schemas.now epoch class }
{
    match schemas.upgraded.get(epoch as usize) {
        Some(next) => match schema_at(schemas, epoch) {
            Some(schema) => upgrade_of(&schema.classes, &next.upgrade, class),
            None => None,
        },
        None => None,
    }
}

/// The level of an object in a store: the greatest epoch, up to the store's, by which no upgrade has changed it since
/// it was written. It is due where its level is below the store's epoch. This takes no memory.
///
/// Lazy upgrades are those of Boyapati and others (OOPSLA 2003).
pub fn level(schemas: &Schemas, class: u16, ver: u32, epoch: u32) -> u32
    requires { ver ≤ epoch }
    ensures { (fields : List Value) → result ≡ spec.level schemas.now epoch (record { class = class; ver = ver; fields = fields }) }
{
    for before in ver..epoch {
        if next_of(schemas, before, class).is_some() {
            return before;
        }
    }
    epoch
}
