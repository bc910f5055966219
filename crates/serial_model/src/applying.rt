ghost use Rattle.std.specs.Prelude.{◌≡◌, ◌+◌, ◌<◌, ◌^◌, ◌↔◌, List, [], Some, IsTrue, IfOk, option_map};
ghost use Rattle.std.specs.Option.{option_copied};
ghost use Rattle.thor_value.specs.FiniteMap.{IsSorted};
ghost use Rattle.thor_value.specs.declared.values.Answer.TheVariants as answer;
ghost use Rattle.class_defs.specs.declared.store.Plain.{Plain};
ghost use Rattle.class_defs.specs.declared.store.Root.{Root};
ghost use Rattle.class_defs.specs.Epochs.{schema_at, upgrade_to};
ghost use Rattle.class_defs.specs.UpgradeLinesAside.{upgrade_on_line_1};
ghost use Rattle.serial_model.specs.History.{IsLegalUpgrade};
ghost use Rattle.serial_model.specs.Replays.{AppliesDoing, AreMade};
ghost use Rattle.serial_model.specs.Whole.{IsOfItsEpoch, bare_objects, plain};
ghost use Rattle.serial_model.specs.declared.entries.What.TheVariants as what;

use crate::entries::{Did, What};
use crate::equality::Same;
use crate::fresh::are_fresh;
use crate::lines_aside::SameAside;
use crate::running::run_on_current;
use crate::upgrading::upgrade_store;
use crate::viewing::{plain_of, view_of};
use class_defs::{Block, Roots, Schema, Schemas, Upgrade};
use method_eval::View;
use std::alloc::Global;
use std::mem;
use thor_value::{Answer, NoMemory, OrefMap};

/// The schema of an epoch; nothing past the last one.
fn schema_at(schemas: &Schemas, epoch: u32) -> Option<&Schema>
    ensures { option_map (λ schema. schema.now) result ≡ schema_at schemas.now epoch }
{
    if epoch == 0 {
        return Some(&schemas.first);
    }
    match schemas.upgraded.get((epoch - 1) as usize) {
        Some(upgraded) => Some(&upgraded.schema),
        None => None,
    }
}

/// Whether this upgrade is the one that leads to an epoch, lines aside.
fn leads_to(schemas: &Schemas, epoch: u32, upgrade: &Upgrade) -> bool
    ensures { IsTrue result ↔ (option_map upgrade_on_line_1 (upgrade_to schemas.now epoch) ≡ Some (upgrade_on_line_1 upgrade.now)) }
{
    if epoch == 0 {
        return false;
    }
    match schemas.upgraded.get((epoch - 1) as usize) {
        Some(upgraded) => upgraded.upgrade.same_aside(upgrade),
        None => false,
    }
}

/// Whether an answer is that of an upgrade, which prints nothing.
fn says_nothing(said: &Answer) -> bool
    ensures { IsTrue result ↔ (said.now ≡ answer.Ints []) }
{
    match said {
        Answer::Ints(ints) => ints.is_empty(),
        Answer::Fault(_) => false,
    }
}

/// Whether an upgrade is legal as an entry on a store of this epoch.
fn is_legal_upgrade(schemas: &Schemas, entry: &Did, upgrade: &Upgrade, epoch: u32) -> bool
    ensures legal { (store : Plain) → store.epoch ≡ epoch → (IsTrue result ↔ IsLegalUpgrade schemas.now store entry.now upgrade.now) }
    ensures room { IsTrue result → epoch + 1 < 2 ^ 32 }
{
    entry.number > 0
        && entry.number - 1 == epoch
        && entry.fresh.is_empty()
        && says_nothing(&entry.answer)
        && leads_to(schemas, entry.number, upgrade)
}

/// Applies a transaction, as an entry of the history, to the store that a view has.
fn apply_tx(
    alloc: Global,
    schemas: &Schemas,
    entry: &Did,
    tx: &Block,
    view: &mut View,
) -> Result<bool, NoMemory>
    requires made { AreMade schemas.now }
    requires versions { IsOfItsEpoch view.old }
    ensures { IfOk result (λ applied. (roots : List Root) → AppliesDoing schemas.now entry.now (what.Tx tx.now) roots view.old applied view.new) }
{
    if entry.number != 0 || !are_fresh(view, &entry.fresh) {
        return Ok(false);
    }
    let Some(schema) = schema_at(schemas, view.epoch) else {
        return Ok(false);
    };
    match run_on_current(alloc, tx, schema, view, &entry.fresh)? {
        Some(answer) => Ok(answer.same(&entry.answer)),
        None => Ok(false),
    }
}

/// Applies an upgrade, as an entry of the history, to the store that a view has: it transforms all objects.
fn apply_upgrade(
    alloc: Global,
    schemas: &Schemas,
    entry: &Did,
    upgrade: &Upgrade,
    roots: &Roots,
    view: &mut View,
) -> Result<bool, NoMemory>
    requires made { AreMade schemas.now }
    requires sorted { IsSorted (bare_objects view.old.objects) }
    ensures { IfOk result (λ applied. AppliesDoing schemas.now entry.now (what.Upgrade upgrade.now) roots.now view.old applied view.new) }
{
    let epoch = view.epoch;
    if !is_legal_upgrade(schemas, entry, upgrade, epoch) {
        return Ok(false);
    }
    let (Some(old), Some(new)) = (schema_at(schemas, epoch), schema_at(schemas, epoch + 1)) else {
        return Ok(false);
    };
    let objects = mem::replace(&mut view.objects, OrefMap::new(alloc));
    let store = plain_of(alloc, objects, epoch, roots)?;
    *view = view_of(
        alloc,
        &upgrade_store(alloc, &old.classes, &new.classes, upgrade, &store)?,
    )?;
    Ok(true)
}

/// Applies an entry to the store that a view has, where it is legal there.
pub fn apply(
    alloc: Global,
    schemas: &Schemas,
    entry: &Did,
    roots: &Roots,
    view: &mut View,
) -> Result<bool, NoMemory>
    requires made { AreMade schemas.now }
    requires versions { IsOfItsEpoch view.old }
    requires sorted { IsSorted (bare_objects view.old.objects) }
    ensures { IfOk result (λ applied. AppliesDoing schemas.now entry.now entry.now.what roots.now view.old applied view.new) }
{
    match &entry.what {
        What::Tx(tx) => apply_tx(alloc, schemas, entry, tx, view),
        What::Upgrade(upgrade) => apply_upgrade(alloc, schemas, entry, upgrade, roots, view),
    }
}
