//! The schemas of a store's epochs, with those behind a script's upgrades.

ghost use Rattle.std.specs.Prelude.{◌≡◌, IfOk, OnOk};
ghost use Rattle.std.specs.List.{flat_map};
ghost use Rattle.script_check.specs.Upgrading as spec;
ghost use Rattle.script_check.specs.Upgrading.{extended, upgrade_in, upgrades_of};

use class_defs::{Schema, Schemas, Upgrade, UpgradedSchema};
use ownership_check::{apply, has_next_number};
use script_parse::Items;
use serial_model::What;
use std::alloc::Global;
use thor_value::{NoMemory, TryCopy};

/// The schema of the last epoch.
#[tactic(auto, using(crate::proofs::Extending::last_some))]
pub fn last_schema(schemas: &Schemas) -> &Schema
    ensures { result.now ≡ spec.last_schema schemas.now }
{
    match schemas.upgraded.as_slice().last() {
        Some(upgraded) => &upgraded.schema,
        None => &schemas.first,
    }
}

/// One more upgrade. Want of memory, too, where there is no number for it.
fn take_upgrade(alloc: Global, schemas: &mut Schemas, upgrade: &Upgrade) -> Result<(), NoMemory>
    ensures { OnOk result (schemas.new ≡ spec.with_epoch schemas.old upgrade.now) }
{
    let last = last_schema(schemas);
    if !has_next_number(last) {
        return Err(NoMemory);
    }
    let schema = apply(alloc, last, upgrade)?;
    let upgrade = upgrade.copy()?;
    schemas.upgraded.push(UpgradedSchema { upgrade, schema })
}

fn take_item(alloc: Global, schemas: &mut Schemas, item: &What) -> Result<(), NoMemory>
    ensures { OnOk result (schemas.new ≡ extended schemas.old (upgrade_in item.now)) }
{
    match item {
        What::Tx(_) => Ok(()),
        What::Upgrade(upgrade) => take_upgrade(alloc, schemas, upgrade),
    }
}

fn take_items(alloc: Global, schemas: &mut Schemas, items: &[What]) -> Result<(), NoMemory>
    ensures { OnOk result (schemas.new ≡ extended schemas.old (flat_map upgrade_in items.now)) }
{
    for item in items {
        take_item(alloc, schemas, item)?;
    }
    Ok(())
}

/// The schemas of a store's epochs, and behind them those to which the upgrades of clients lead, in their
/// order.
pub fn with_upgrades(
    alloc: Global,
    schemas: Schemas,
    clients: &[Items],
) -> Result<Schemas, NoMemory>
    ensures { IfOk result (λ behind. behind ≡ extended schemas (upgrades_of clients.now)) }
{
    let mut schemas = schemas;
    for client in clients {
        take_items(alloc, &mut schemas, client.as_slice())?;
    }
    Ok(schemas)
}
