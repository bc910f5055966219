//! Whether the texts of repositories spell schemas, and are those of repository 0.

ghost use Rattle.std.specs.List.{AllByRecursion};
ghost use Rattle.std.specs.Prelude.{IfErr, IfOk, IsErrOf, IsTrue, Ok, OnOk, length, ◌≡◌, ◌↔◌, ℕ};
ghost use Rattle.store_opening.specs.Fitting.{IsAlike, IsFirstNot, IsRead, SpellFor};
ghost use Rattle.store_opening.specs.Joined.{AreKept, read_states, state_of};
ghost use Rattle.store_opening.specs.Standing.{HaveSameTexts, IsStanding, member_of, members_of};
ghost use Rattle.store_opening.specs.declared.misfit.Misfit.TheVariants.{Of};
ghost use Rattle.store_check.specs.Spelled.{FindsOnly};

use crate::misfit::Misfit;
use crate::standing::Stands;
use class_defs::{Root, Roots, Schemas};
use repo_opening::{Read, number_at};
use std::alloc::Global;
use store_check::{Texts, schemas_of};
use thor_value::{NoMemory, Text};

/// The schemas that the texts of a repository spell.
fn spelled(alloc: Global, store: &[Read<'_>], stands: &Stands) -> Result<Option<Schemas>, NoMemory>
    requires { IsStanding store.now stands.now }
    ensures { IfOk result (FindsOnly (SpellFor (read_states store.now) (state_of stands.now.read.now))) }
{
    let repos = number_at(store.len())?;
    let state = &stands.read.recovered.state;
    let texts = Texts {
        classes: state.classes(),
        roots: state.roots(),
        upgrades: stands.settled.upgrades.as_slice(),
    };
    schemas_of(alloc, texts, repos)
}

/// The schemas that the texts of a repository spell, where they spell some.
pub(crate) fn read_schemas(
    alloc: Global,
    store: &[Read<'_>],
    stands: &Stands,
) -> Result<Schemas, Misfit>
    requires { IsStanding store.now stands.now }
    ensures spelled { IfOk result (SpellFor (read_states store.now) (state_of stands.now.read.now)) }
    ensures misfit { (r : ℕ) → IsErrOf result (Of r) → (r ≡ stands.now.repo) × ((schemas : _) → SpellFor (read_states store.now) (state_of stands.now.read.now) schemas → ⊥) }
{
    match spelled(alloc, store, stands)? {
        Some(schemas) => Ok(schemas),
        None => Err(Misfit::Of { repo: stands.repo }),
    }
}

/// The texts of another repository than the first spell schemas. Those of the first do.
fn check_texts(
    alloc: Global,
    store: &[Read<'_>],
    first: &Stands,
    other: &Stands,
) -> Result<(), Misfit>
    requires first { IsStanding store.now first.now }
    requires other { IsStanding store.now other.now }
    ensures passed { OnOk result (IsRead (read_states store.now) (state_of first.now.read.now) (member_of other.now)) }
    ensures misfit { (r : ℕ) → IsErrOf result (Of r) → (r ≡ other.now.repo) × (IsRead (read_states store.now) (state_of first.now.read.now) (member_of other.now) → ⊥) }
{
    if has_texts_of(first, other) {
        return Ok(());
    }
    let schemas = read_schemas(alloc, store, other)?;
    drop(schemas);
    Ok(())
}

/// The texts of the other repositories are those of the first one, or spell schemas.
pub(crate) fn check_read(
    alloc: Global,
    store: &[Read<'_>],
    first: &Stands,
    others: &[Stands],
) -> Result<(), Misfit>
    requires first { IsStanding store.now first.now }
    requires others { AllByRecursion (IsStanding store.now) others.now }
    ensures passed { OnOk result (AllByRecursion (IsRead (read_states store.now) (state_of first.now.read.now)) (members_of others.now)) }
    ensures misfit { (r : ℕ) → IsErrOf result (Of r) → IsFirstNot (IsRead (read_states store.now) (state_of first.now.read.now)) (members_of others.now) r }
{
    for other in others {
        check_texts(alloc, store, first, other)?;
    }
    Ok(())
}

/// The other repositories have the texts and roots of the first one.
pub(crate) fn check_alike(
    store: &[Read<'_>],
    first: &Stands,
    others: &[Stands],
) -> Result<(), Misfit>
    requires first { IsStanding store.now first.now }
    requires others { AllByRecursion (IsStanding store.now) others.now }
    ensures passed { OnOk result (AllByRecursion (IsAlike (read_states store.now) (state_of first.now.read.now)) (members_of others.now)) }
    ensures misfit { (r : ℕ) → IsErrOf result (Of r) → IsFirstNot (IsAlike (read_states store.now) (state_of first.now.read.now)) (members_of others.now) r }
{
    for other in others {
        if !is_alike(store, first, other) {
            return Err(Misfit::Of { repo: other.repo });
        }
    }
    Ok(())
}

/// Whether a repository has the texts and roots of the first one.
fn is_alike(store: &[Read<'_>], first: &Stands, other: &Stands) -> bool
    requires first { IsStanding store.now first.now }
    requires other { IsStanding store.now other.now }
    ensures { IsTrue result ↔ IsAlike (read_states store.now) (state_of first.now.read.now) (member_of other.now) }
{
    if !has_texts_of(first, other) {
        return false;
    }
    are_same_roots(
        first.read.recovered.state.roots(),
        other.read.recovered.state.roots(),
    )
}

/// Whether a repository has the texts of the first one, roots aside.
fn has_texts_of(first: &Stands, other: &Stands) -> bool
    ensures { IsTrue result ↔ HaveSameTexts first.now other.now }
{
    if !is_same_text(
        first.read.recovered.state.classes(),
        other.read.recovered.state.classes(),
    ) {
        return false;
    }
    are_same_texts(
        first.settled.upgrades.as_slice(),
        other.settled.upgrades.as_slice(),
    )
}

fn is_same_text(some: &Text, other: &Text) -> bool
    ensures { IsTrue result ↔ (some.now ≡ other.now) }
{
    some.as_slice() == other.as_slice()
}

fn are_same_texts(some: &[Text], others: &[Text]) -> bool
    ensures { IsTrue result ↔ (some.now ≡ others.now) }
{
    if some.len() != others.len() {
        return false;
    }
    for place in 0..some.len() {
        if !is_same_text(&some[place], &others[place]) {
            return false;
        }
    }
    true
}

fn is_same_root(some: &Root, other: &Root) -> bool
    ensures { IsTrue result ↔ (some.now ≡ other.now) }
{
    if some.class != other.class || some.oref != other.oref {
        return false;
    }
    is_same_text(&some.name, &other.name)
}

fn are_same_roots(some: &Roots, others: &Roots) -> bool
    ensures { IsTrue result ↔ (some.now ≡ others.now) }
{
    let (some, others) = (some.as_slice(), others.as_slice());
    if some.len() != others.len() {
        return false;
    }
    for place in 0..some.len() {
        if !is_same_root(&some[place], &others[place]) {
            return false;
        }
    }
    true
}
