//! The ways from objects up to their owners.

ghost use Rattle.store_check.specs.Naming as spec;
ghost use Rattle.store_check.specs.Naming.{sole};
ghost use Rattle.store_check.specs.Numbers.{HasNumbers};
ghost use Rattle.store_check.specs.Reached.{AreEnded, AreWhole, AreWays};
ghost use Rattle.store_check.specs.Ways.{goes_on, is_way_for, level_of, longer, one_step, some_goes_on, way_or_none, ways_for};
ghost use Rattle.std.specs.Option.{option_copied};
ghost use Rattle.std.specs.Prelude.{IfOk, ◌≡◌};
ghost use Rattle.thor_value.specs.FiniteMap.{get, keys};

use crate::kinds::epoch_of;
use crate::naming::{Naming, sole};
use class_defs::Schemas;
use lang_upgrade_eval::level;
use std::alloc::Global;
use thor_value::{NoMemory, Obj, Oref, OrefMap};

/// Some steps from an object to its owner, from there to that one's owner, and so on.
#[derive(Clone, Copy, Debug, PartialEq, Eq)]
pub struct Way {
    /// Where they lead; nothing where an object on the way has no owner, before all steps are taken.
    pub next: Option<Oref>,
    /// The least level of the owners on the way; the store's epoch where there is none.
    pub least: u32,
}

/// The level of the object of a name; the store's epoch where there is none.
fn level_of(schemas: &Schemas, obj: Option<&Obj>) -> u32
    requires { HasNumbers schemas.now }
    ensures { result ≡ level_of schemas.now (option_copied obj.entry) }
{
    let epoch = epoch_of(schemas);
    match obj {
        Some(obj) => level(schemas, obj.class, obj.ver.min(epoch), epoch),
        None => epoch,
    }
}

/// One step from an object.
fn one_step(objects: &OrefMap<Obj>, schemas: &Schemas, namings: &OrefMap<Naming>, oref: Oref) -> Way
    requires { HasNumbers schemas.now }
    ensures { result ≡ one_step schemas.now objects.now namings.now oref }
{
    match sole(namings.get(oref)) {
        Some(owner) => Way {
            next: Some(owner),
            least: level_of(schemas, objects.get(owner)),
        },
        None => Way {
            next: None,
            least: epoch_of(schemas),
        },
    }
}

/// The way from an object; where it has none, one that leads nowhere.
fn way_of(ways: &OrefMap<Way>, oref: Oref) -> Way
    ensures { result ≡ way_or_none (get ways.now oref) }
{
    match ways.get(oref) {
        Some(way) => *way,
        None => Way {
            next: None,
            least: 0,
        },
    }
}

/// Twice as many steps from an object.
fn longer(ways: &OrefMap<Way>, oref: Oref) -> Way
    ensures { result ≡ longer ways.now oref }
{
    let Way { next, least } = way_of(ways, oref);
    match next {
        Some(owner) => {
            let rest = way_of(ways, owner);
            Way {
                next: rest.next,
                least: least.min(rest.least),
            }
        }
        None => Way { next: None, least },
    }
}

/// One step from each object.
fn first_ways(
    alloc: Global,
    objects: &OrefMap<Obj>,
    schemas: &Schemas,
    namings: &OrefMap<Naming>,
    names: &[Oref],
) -> Result<OrefMap<Way>, NoMemory>
    requires { HasNumbers schemas.now }
    ensures { IfOk result (λ ways. ways ≡ ways_for (one_step schemas.now objects.now namings.now) names.now) }
{
    let mut ways = OrefMap::new(alloc);
    for oref in names {
        ways.insert(*oref, one_step(objects, schemas, namings, *oref))?;
    }
    Ok(ways)
}

/// Twice as many steps from each object.
fn longer_ways(
    alloc: Global,
    before: &OrefMap<Way>,
    names: &[Oref],
) -> Result<OrefMap<Way>, NoMemory>
    ensures { IfOk result (λ ways. ways ≡ ways_for (longer before.now) names.now) }
{
    let mut ways = OrefMap::new(alloc);
    for oref in names {
        ways.insert(*oref, longer(before, *oref))?;
    }
    Ok(ways)
}

/// Whether the way from an object hasn't ended yet, or one before hasn't.
#[tactic(auto, unfolding(crate::specs::Ways::goes_on))]
fn goes_on(ways: &OrefMap<Way>, oref: Oref, before: bool) -> bool
    ensures { result ≡ goes_on ways.now before oref }
{
    match way_of(ways, oref).next {
        Some(_) => true,
        None => before,
    }
}

/// Whether some way hasn't ended yet.
fn some_goes_on(ways: &OrefMap<Way>, names: &[Oref]) -> bool
    ensures { result ≡ some_goes_on ways.now names.now }
{
    let mut found = false;
    for oref in names {
        found = goes_on(ways, *oref, found);
    }
    found
}

/// The ways from all objects, of so many steps that one which hasn't ended then never ends. The steps are doubled
/// each time, so that it is done as often as the number of the steps on the longest way has digits.
pub(crate) fn whole_ways(
    alloc: Global,
    objects: &OrefMap<Obj>,
    schemas: &Schemas,
    namings: &OrefMap<Naming>,
    names: &[Oref],
) -> Result<OrefMap<Way>, NoMemory>
    requires numbers { HasNumbers schemas.now }
    requires names { names.now ≡ keys objects.now }
    requires noted { namings.now ≡ spec.namings schemas.now objects.now }
    ensures { IfOk result (λ ways. AreWhole schemas.now objects.now namings.now ways) }
{
    let most = names.len() as u128;
    let mut ways = first_ways(alloc, objects, schemas, namings, names)?;
    let mut steps: u128 = 1;
    'doubled: while steps <= most {
        if !some_goes_on(&ways, names) {
            return Ok(ways);
        }
        ways = longer_ways(alloc, &ways, names)?;
        steps *= 2;
    }
    Ok(ways)
}

/// Whether the way of a part of this version has ended, and no owner on it lags behind the version.
pub(crate) fn is_way_for(ways: &OrefMap<Way>, oref: Oref, version: u32) -> bool
    ensures { result ≡ is_way_for version (way_or_none (get ways.now oref)) }
{
    let Way { next, least } = way_of(ways, oref);
    next.is_none() && version <= least
}
