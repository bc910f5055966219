//! Whether two stores are the same.

use class_defs::{Object, Plain};
use std::alloc::Global;
use thor_value::NoMemory;

fn is_same_object(some: &Object, other: &Object) -> bool {
    some.class == other.class && some.fields.as_slice() == other.fields.as_slice()
}

/// Whether two stores have the same objects, and the same epoch.
pub(crate) fn are_same(alloc: Global, some: &Plain, other: &Plain) -> Result<bool, NoMemory> {
    if some.epoch != other.epoch || some.objects.len() != other.objects.len() {
        return Ok(false);
    }
    let names = some.objects.names(alloc)?;
    for name in names.as_slice() {
        let same = match (some.objects.get(*name), other.objects.get(*name)) {
            (Some(object), Some(found)) => is_same_object(object, found),
            (_, _) => false,
        };
        if !same {
            return Ok(false);
        }
    }
    Ok(true)
}
