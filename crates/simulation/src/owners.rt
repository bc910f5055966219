//! A transform reads the owners of the object that it brings up to an epoch.

use class_defs::{ClassKind, Object, Plain, Schema, Schemas};
use log_entries::{Entry, Kind, Request};
use repo_trace::Traces;
use std::alloc::Global;
use thor_value::{NoMemory, Oref, Value};

/// The most owners of one object that are looked at.
const MOST: u8 = 64;

/// The schema of an epoch.
fn schema_of(schemas: &Schemas, epoch: u32) -> Option<&Schema> {
    if epoch == 0 {
        return Some(&schemas.first);
    }
    match schemas
        .upgraded
        .as_slice()
        .get((epoch.saturating_sub(1)) as usize)
    {
        Some(upgraded) => Some(&upgraded.schema),
        None => None,
    }
}

/// Whether an object of a store is a part.
fn is_part(schema: &Schema, store: &Plain, oref: Oref) -> bool {
    let Some(object) = store.objects.get(oref) else {
        return false;
    };
    match schema.classes.as_slice().get(usize::from(object.class)) {
        Some(class) => match class.kind {
            ClassKind::Part => true,
            ClassKind::Free => false,
        },
        None => false,
    }
}

fn names(object: &Object, part: Oref) -> bool {
    for value in object.fields.as_slice() {
        if let Value::Ref(oref) = value {
            if *oref == part {
                return true;
            }
        }
    }
    false
}

/// The object that has a part.
fn owner_of(alloc: Global, store: &Plain, part: Oref) -> Result<Option<Oref>, NoMemory> {
    let all = store.objects.names(alloc)?;
    for name in all.as_slice() {
        if let Some(object) = store.objects.get(*name) {
            if names(object, part) {
                return Ok(Some(*name));
            }
        }
    }
    Ok(None)
}

/// Whether a request has read all owners of an object that it has in this store.
fn reads_owners_of(
    alloc: Global,
    schema: &Schema,
    store: &Plain,
    request: &Request,
    oref: Oref,
) -> Result<bool, NoMemory> {
    let mut part = oref;
    for _ in 0..MOST {
        if !is_part(schema, store, part) {
            return Ok(true);
        }
        let Some(owner) = owner_of(alloc, store, part)? else {
            return Ok(true);
        };
        if !request.ros.as_slice().contains(&owner) {
            return Ok(false);
        }
        part = owner;
    }
    Ok(true)
}

/// Whether a request reads what it has to, where it is a transform to the epoch of the store.
fn is_read(
    alloc: Global,
    schema: &Schema,
    store: &Plain,
    request: &Request,
) -> Result<bool, NoMemory> {
    match &request.kind {
        Kind::Transform if request.epoch == store.epoch => {
            for write in request.writes.as_slice() {
                if !reads_owners_of(alloc, schema, store, request, write.0)? {
                    return Ok(false);
                }
            }
            Ok(true)
        }
        _ => Ok(true),
    }
}

/// Whether each transform to the epoch of a store, in the histories of its repositories, has read all owners that its
/// object still has.
pub(crate) fn read_owners(
    alloc: Global,
    traces: &Traces,
    schemas: &Schemas,
    store: &Plain,
) -> Result<bool, NoMemory> {
    let Some(schema) = schema_of(schemas, store.epoch) else {
        return Ok(true);
    };
    for trace in traces.as_slice() {
        for entry in trace.history.as_slice() {
            if let Entry::One { request } = entry {
                if !is_read(alloc, schema, store, request)? {
                    return Ok(false);
                }
            }
        }
    }
    Ok(true)
}
