//! Whether stored objects are of their classes and well owned.

ghost use Rattle.store_check.specs.Fits.{TellsFit, stored_under};
ghost use Rattle.store_check.specs.Numbers.{HasNumbers};
ghost use Rattle.store_check.specs.Tests.{least_name, least_root, least_with, lesser, object_fits, root_fits};
ghost use Rattle.std.specs.Option.{option_copied};
ghost use Rattle.std.specs.Prelude.{IfOk, ◌≡◌};
ghost use Rattle.thor_value.specs.FiniteMap.{get};

use crate::kinds::{has_numbers, is_part, kinds_fit, root_fits};
use crate::naming::{Naming, is_kept, namings_of};
use crate::ways::{Way, is_way_for, whole_ways};
use class_defs::{ExprType, Roots, Schemas};
use std::alloc::Global;
use std::cmp::Ordering;
use thor_value::{NoMemory, Obj, Oref, OrefMap};

/// Whether a map fits its schemas.
#[derive(Clone, Copy, Debug, PartialEq, Eq)]
pub enum Fitting {
    Fits,
    /// The object of this name, or the name that a root gives, is the least that doesn't fit.
    Unfit { oref: Oref },
}

/// What is known of the objects of a store.
#[derive(Clone, Copy)]
struct Known<'a> {
    objects: &'a OrefMap<Obj>,
    schemas: &'a Schemas,
    namings: &'a OrefMap<Naming>,
    ways: &'a OrefMap<Way>,
}

/// The lesser of two names.
fn lesser(found: Option<Oref>, oref: Oref) -> Oref
    ensures { result ≡ lesser found oref }
{
    match found {
        Some(least) => match oref.cmp(&least) {
            Ordering::Less => oref,
            Ordering::Equal | Ordering::Greater => least,
        },
        None => oref,
    }
}

/// The least name that doesn't fit, with one more.
fn least_with(fits: bool, oref: Oref, found: Option<Oref>) -> Option<Oref>
    ensures { result ≡ least_with fits oref found }
{
    if fits {
        found
    } else {
        Some(lesser(found, oref))
    }
}

/// Whether the object of a name fits.
fn object_fits(known: Known, oref: Oref) -> bool
    requires { HasNumbers known.schemas.now }
    ensures { result ≡ object_fits known.entry.schemas.now known.entry.objects.now (get known.entry.namings.now oref) (get known.entry.ways.now oref) (get known.entry.objects.now oref) }
{
    let Some(obj) = known.objects.get(oref) else {
        return true;
    };
    if !kinds_fit(known.objects, known.schemas, obj) {
        return false;
    }
    if !is_part(known.schemas, ExprType::Class(obj.class)) {
        return true;
    }
    if is_kept(known.namings.get(oref)) {
        is_way_for(known.ways, oref, obj.ver)
    } else {
        false
    }
}

/// The least name whose object doesn't fit.
fn least_name(known: Known, names: &[Oref]) -> Option<Oref>
    requires { HasNumbers known.schemas.now }
    ensures { result ≡ least_name known.entry.schemas.now known.entry.objects.now known.entry.namings.now known.entry.ways.now names.now }
{
    let mut found = None;
    for oref in names {
        found = least_with(object_fits(known, *oref), *oref, found);
    }
    found
}

/// The lesser of a name and the least one of a root that doesn't fit.
fn least_root(known: Known, roots: &Roots, found: Option<Oref>) -> Option<Oref>
    ensures { result ≡ least_root known.entry.schemas.now known.entry.objects.now roots.now found }
{
    let mut found = found;
    for root in roots.as_slice() {
        found = least_with(
            root_fits(known.objects, known.schemas, root),
            root.oref,
            found,
        );
    }
    found
}

/// Whether the objects of a store fit its schemas, with its roots.
///
/// A store fits where each object is of no later epoch than the store, is of its class as that was in the epoch in which
/// it was written, and refers to objects of the declared classes; where each part has one owner at most, in its own
/// repository, who alone names it, once; where going from part to owner ends; where no part was written in an epoch that
/// one of its owners hasn't reached; and where roots name free objects of their classes.
///
/// It takes time in proportion to the objects and their fields, but for logarithms. `NoMemory` comes for want of memory,
/// and where a schema has more classes than numbers of 16 bits, or the store more epochs than numbers of 32.
pub fn fits(
    alloc: Global,
    objects: &OrefMap<Obj>,
    roots: &Roots,
    schemas: &Schemas,
) -> Result<Fitting, NoMemory>
    ensures { IfOk result (TellsFit schemas.now (stored_under schemas.now objects.now roots.now)) }
{
    if !has_numbers(schemas) {
        return Err(NoMemory);
    }
    let names = objects.names(alloc)?;
    let namings = namings_of(alloc, objects, schemas, names.as_slice())?;
    let ways = whole_ways(alloc, objects, schemas, &namings, names.as_slice())?;
    let known = Known {
        objects,
        schemas,
        namings: &namings,
        ways: &ways,
    };
    let found = least_name(known, names.as_slice());
    match least_root(known, roots, found) {
        Some(oref) => Ok(Fitting::Unfit { oref }),
        None => Ok(Fitting::Fits),
    }
}
