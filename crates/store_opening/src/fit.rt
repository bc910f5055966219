//! Whether the repositories of an open store fit together.

ghost use Rattle.class_defs.specs.SchemaRules.{schema_rules};
ghost use Rattle.std.specs.List.{AllByRecursion};
ghost use Rattle.std.specs.Prelude.{IfOk, IfSome, IsErrOf, OnOk, [], length, ◌≡◌, ◌≤◌, ℕ};
ghost use Rattle.store_check.specs.Fits.{TellsFit, stored_under};
ghost use Rattle.store_check.specs.declared.fitting.Fitting.TheVariants.{Fits};
ghost use Rattle.store_opening.specs.Fitting.{ArePassed, AreSchemasOf, FailsFrom, FailsIn, FitTogether, HasCoordinators, HasOwnNames, IsBelow, IsFirstNot, IsMisfit, IsUnfit, IsUnfitIn, PassFrom, stored_of};
ghost use Rattle.store_opening.specs.Joined.{AreKept, read_states, state_of};
ghost use Rattle.store_opening.specs.OpenedStore.{joined, roots_of};
ghost use Rattle.store_opening.specs.Standing.{IsStanding, members_of};
ghost use Rattle.store_opening.specs.declared.misfit.Misfit.TheVariants.{Of};

use crate::alike::{check_alike, check_read, read_schemas};
use crate::joined::joined;
use crate::misfit::Misfit;
use crate::separate::{has_coordinators, has_own_names, is_below};
use crate::standing::{Stands, standing_of};
use class_defs::{Roots, Schemas};
use repo_opening::{Read, number_at};
use std::alloc::Global;
use store_check::{Fitting, fits, is_lawful};
use thor_value::{NoMemory, Obj, Oref, OrefMap, both};

/// Checks that the repositories of a store fit together, and gives the schemas of its epochs and the objects of
/// all repositories, over those of their pages.
///
/// The checks come one behind the other, each over all repositories, rising: the texts, that they are those
/// of repository 0, the prepared requests, the decisions, the names of objects, and the objects.
pub(crate) fn check_store(
    alloc: Global,
    store: &[Read<'_>],
    paged: OrefMap<Obj>,
) -> Result<(Schemas, OrefMap<Obj>), Misfit>
    requires { AreKept store.now }
    ensures objects { IfOk result (λ checked. checked.1 ≡ joined (read_states store.now) paged) }
    ensures fits { IfOk result (λ checked. FitTogether (read_states store.now) paged checked.0) }
    ensures misfit { (r : ℕ) → IsErrOf result (Of r) → IsMisfit (read_states store.now) paged r }
{
    let names = paged.names(alloc);
    let (paged, names) = both(paged, names)?;
    let separate = check_separate(alloc, store, names.as_slice());
    let (paged, schemas) = both(paged, separate)?;
    check_together(alloc, store, schemas, paged)
}

/// The schemas of a store whose repositories pass each check by themselves. The names are those of the objects of all pages.
fn check_separate(alloc: Global, store: &[Read<'_>], names: &[Oref]) -> Result<Schemas, Misfit>
    requires { AreKept store.now }
    ensures schemas { IfOk result (AreSchemasOf (read_states store.now)) }
    ensures passed { OnOk result (PassFrom (read_states store.now) names.now (read_states store.now)) }
    ensures misfit { (r : ℕ) → IsErrOf result (Of r) → FailsFrom (read_states store.now) names.now (read_states store.now) r (λ _. ⊥) }
{
    let standing = standing_of(alloc, store)?;
    let Some((first, others)) = standing.as_slice().split_first() else {
        return Err(Misfit::NoMemory);
    };
    let schemas = read_schemas(alloc, store, first)?;
    let checked = check_each(alloc, store, first, others, standing.as_slice(), names);
    let (schemas, _) = both(schemas, checked)?;
    Ok(schemas)
}

/// What is checked of each repository by itself.
fn check_each(
    alloc: Global,
    store: &[Read<'_>],
    first: &Stands,
    others: &[Stands],
    all: &[Stands],
    names: &[Oref],
) -> Result<(), Misfit>
    requires kept { AreKept store.now }
    requires first { IsStanding store.now first.now }
    requires others { AllByRecursion (IsStanding store.now) others.now }
    requires all { AllByRecursion (IsStanding store.now) all.now }
    ensures passed { OnOk result (ArePassed (read_states store.now) names.now (state_of first.now.read.now) (members_of others.now) (members_of all.now)) }
    ensures misfit { (r : ℕ) → IsErrOf result (Of r) → FailsIn (read_states store.now) names.now (state_of first.now.read.now) (members_of others.now) (members_of all.now) r ⊥ }
{
    check_read(alloc, store, first, others)?;
    check_alike(store, first, others)?;
    check_coordinators(store, all)?;
    check_below(store, all)?;
    check_names(alloc, store, all, names)
}

/// Each prepared request of each repository has a coordinator.
fn check_coordinators(store: &[Read<'_>], standing: &[Stands]) -> Result<(), Misfit>
    requires kept { AreKept store.now }
    requires standing { AllByRecursion (IsStanding store.now) standing.now }
    ensures passed { OnOk result (AllByRecursion (HasCoordinators (read_states store.now)) (members_of standing.now)) }
    ensures misfit { (r : ℕ) → IsErrOf result (Of r) → IsFirstNot (HasCoordinators (read_states store.now)) (members_of standing.now) r }
{
    for one in standing {
        let has = has_coordinators(store, one)?;
        if !has {
            return Err(Misfit::Of { repo: one.repo });
        }
    }
    Ok(())
}

/// No decision and no last transaction of each repository is above its threshold.
fn check_below(store: &[Read<'_>], standing: &[Stands]) -> Result<(), Misfit>
    requires standing { AllByRecursion (IsStanding store.now) standing.now }
    ensures passed { OnOk result (AllByRecursion (IsBelow (read_states store.now)) (members_of standing.now)) }
    ensures misfit { (r : ℕ) → IsErrOf result (Of r) → IsFirstNot (IsBelow (read_states store.now)) (members_of standing.now) r }
{
    for one in standing {
        let below = is_below(store, one)?;
        if !below {
            return Err(Misfit::Of { repo: one.repo });
        }
    }
    Ok(())
}

/// The names of the objects of each repository are its own.
fn check_names(
    alloc: Global,
    store: &[Read<'_>],
    standing: &[Stands],
    names: &[Oref],
) -> Result<(), Misfit>
    requires kept { AreKept store.now }
    requires standing { AllByRecursion (IsStanding store.now) standing.now }
    ensures passed { OnOk result (AllByRecursion (HasOwnNames (read_states store.now) names.now) (members_of standing.now)) }
    ensures misfit { (r : ℕ) → IsErrOf result (Of r) → IsFirstNot (HasOwnNames (read_states store.now) names.now) (members_of standing.now) r }
{
    for one in standing {
        let own = has_own_names(alloc, store, one, names)?;
        if !own {
            return Err(Misfit::Of { repo: one.repo });
        }
    }
    Ok(())
}

/// The schemas and the objects of all repositories, where the objects fit, and the schemas break no rule.
fn check_together(
    alloc: Global,
    store: &[Read<'_>],
    schemas: Schemas,
    paged: OrefMap<Obj>,
) -> Result<(Schemas, OrefMap<Obj>), Misfit>
    requires kept { AreKept store.now }
    requires few { length schemas.first.classes ≤ 65536 }
    ensures schemas { IfOk result (λ checked. checked.0 ≡ schemas) }
    ensures objects { IfOk result (λ checked. checked.1 ≡ joined (read_states store.now) paged) }
    ensures fits { OnOk result (TellsFit schemas (stored_of (read_states store.now) paged schemas) Fits) }
    ensures keeps { OnOk result (schema_rules schemas.first (length (read_states store.now)) ≡ []) }
    ensures misfit { (r : ℕ) → IsErrOf result (Of r) → IsUnfit (read_states store.now) paged schemas r }
{
    let joined = joined(alloc, store, paged);
    let (schemas, objects) = both(schemas, joined)?;
    let checked = check_objects(alloc, store, &objects, &schemas);
    let (held, _) = both((schemas, objects), checked)?;
    Ok(held)
}

/// The objects of all repositories fit, and the schemas break no rule.
fn check_objects(
    alloc: Global,
    store: &[Read<'_>],
    objects: &OrefMap<Obj>,
    schemas: &Schemas,
) -> Result<(), Misfit>
    requires few { length schemas.now.first.classes ≤ 65536 }
    ensures fits { OnOk result (TellsFit schemas.now (stored_under schemas.now objects.now (roots_of (read_states store.now))) Fits) }
    ensures keeps { OnOk result (schema_rules schemas.now.first (length (read_states store.now)) ≡ []) }
    ensures misfit { (r : ℕ) → IsErrOf result (Of r) → IsUnfitIn (read_states store.now) (stored_under schemas.now objects.now (roots_of (read_states store.now))) schemas.now r }
{
    let Some(roots) = first_roots(store) else {
        return Err(Misfit::NoMemory);
    };
    match fits(alloc, objects, roots, schemas)? {
        Fitting::Fits => check_rules(alloc, store, schemas),
        Fitting::Unfit { oref } => Err(Misfit::Of { repo: oref.repo }),
    }
}

/// The roots, as repository 0 has them.
fn first_roots<'a>(store: &'a [Read<'a>]) -> Option<&'a Roots>
    ensures { IfSome result (λ roots. roots.now ≡ roots_of (read_states store.now)) }
{
    match store.first() {
        Some(first) => Some(first.recovered.state.roots()),
        None => None,
    }
}

/// The first schema of a store breaks no rule with its roots.
fn check_rules(alloc: Global, store: &[Read<'_>], schemas: &Schemas) -> Result<(), Misfit>
    requires few { length schemas.now.first.classes ≤ 65536 }
    ensures keeps { OnOk result (schema_rules schemas.now.first (length (read_states store.now)) ≡ []) }
    ensures misfit { (r : ℕ) → IsErrOf result (Of r) → (r ≡ 0) × (schema_rules schemas.now.first (length (read_states store.now)) ≡ [] → ⊥) }
{
    let repos = number_at(store.len())?;
    let lawful = is_lawful(alloc, schemas, repos)?;
    if !lawful {
        return Err(Misfit::Of { repo: 0 });
    }
    Ok(())
}
