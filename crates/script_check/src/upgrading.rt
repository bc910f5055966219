ghost use Rattle.std.specs.Prelude.{◌≡◌, ◌≤◌, ◌^◌, ◌-◌, ◌∷◌, [], length, min, None, IfOk, IfErr, OnOk};
ghost use Rattle.std.specs.List.{flat_map};
ghost use Rattle.class_defs.specs.Applied.{applied};
ghost use Rattle.class_defs.specs.Rules.{least};
ghost use Rattle.class_defs.specs.SchemaRules.{item_rules, schema_rules};
ghost use Rattle.class_defs.specs.UpgradeOrder.{own_fault};
ghost use Rattle.method_check.specs.Told.{Tells};
ghost use Rattle.script_check.specs.Upgrading as spec;
ghost use Rattle.script_check.specs.Upgrading.{HasRoom, Leads, upgrade_in, upgrades_of};

use crate::judging::note_clients;
use class_defs::{Blocks, Checked, Rule, RuleFault, Schema, Upgrade};
use method_check::CheckError;
use ownership_check::own_check;
use script_parse::Items;
use serial_model::What;
use std::alloc::Global;
use thor_value::{NoMemory, TryCopy};

/// 1 for an upgrade, 0 for a transaction.
fn upgrade_number(item: &What) -> usize
    ensures { result ≡ length (upgrade_in item.now) }
{
    match item {
        What::Tx(_) => 0,
        What::Upgrade(_) => 1,
    }
}

/// How many of the items are upgrades; the greatest number where there are more.
fn upgrades_in(items: &[What]) -> usize
    ensures { result ≡ min (length (flat_map upgrade_in items.now)) (2 ^ 64 - 1) }
{
    let mut count: usize = 0;
    for item in items {
        count = count.saturating_add(upgrade_number(item));
    }
    count
}

/// How many upgrades the clients have; the greatest number where there are more.
pub fn upgrade_count(clients: &[Items]) -> usize
    ensures { result ≡ min (length (upgrades_of clients.now)) (2 ^ 64 - 1) }
{
    let mut count: usize = 0;
    for client in clients {
        count = count.saturating_add(upgrades_in(client.as_slice()));
    }
    count
}

/// One of the faults of all clients' transactions under a schema.
#[tactic(auto, using(crate::proofs::OutsideLaws::items_as_blocks))]
fn items_fault(
    alloc: Global,
    schema: &Schema,
    repos: u8,
    clients: &[Items],
) -> Result<Option<RuleFault>, NoMemory>
    requires { length schema.now.classes ≤ 65536 }
    ensures { IfOk result (λ fault. fault ≡ least (flat_map (item_rules schema.now repos) (spec.blocks_of clients.now))) }
{
    let mut found = None;
    note_clients(alloc, schema, clients, repos, &mut found)?;
    Ok(found)
}

/// The schema behind an upgrade, which is checked without the transactions.
fn behind_alone(alloc: Global, schema: &Checked, upgrade: &Upgrade) -> Result<Checked, CheckError>
    requires { HasRoom schema.now.schema (upgrade.now ∷ []) }
    ensures sound { OnOk result (own_fault schema.now.schema schema.now.repos upgrade.now [] ≡ None) }
    ensures schema { IfOk result (λ behind. behind.schema ≡ applied schema.now.schema upgrade.now) }
    ensures repos { IfOk result (λ behind. behind.repos ≡ schema.now.repos) }
    ensures broken { IfErr result (λ error. Tells error (own_fault schema.now.schema schema.now.repos upgrade.now [])) }
{
    let none = Blocks::new(alloc);
    Ok(own_check(alloc, schema, upgrade, &none)?.checked)
}

/// The schema behind an upgrade. What it breaks of the transactions is looked at behind the rest, so that they are lent
/// and not copied.
fn behind_upgrade(
    alloc: Global,
    schema: &Checked,
    upgrade: &Upgrade,
    all: &[Items],
) -> Result<Checked, CheckError>
    requires { HasRoom schema.now.schema (upgrade.now ∷ []) }
    ensures { Leads schema.now.schema schema.now.repos (upgrade.now ∷ []) (spec.blocks_of all.now) result }
{
    let behind = behind_alone(alloc, schema, upgrade)?;
    match items_fault(alloc, &behind.schema, behind.repos, all)? {
        None => Ok(behind),
        Some(_) => Err(CheckError::Broken(RuleFault {
            line: upgrade.line,
            rule: Rule::O7,
        })),
    }
}

/// The schema behind an item, which may be an upgrade.
fn behind_item(
    alloc: Global,
    schema: Checked,
    item: &What,
    all: &[Items],
) -> Result<Checked, CheckError>
    requires { HasRoom schema.schema (upgrade_in item.now) }
    ensures { Leads schema.schema schema.repos (upgrade_in item.now) (spec.blocks_of all.now) result }
{
    match item {
        What::Tx(_) => Ok(schema),
        What::Upgrade(upgrade) => behind_upgrade(alloc, &schema, upgrade, all),
    }
}

/// The schema behind the upgrades of a client.
fn behind_items(
    alloc: Global,
    schema: Checked,
    items: &[What],
    all: &[Items],
) -> Result<Checked, CheckError>
    requires { HasRoom schema.schema (flat_map upgrade_in items.now) }
    ensures { Leads schema.schema schema.repos (flat_map upgrade_in items.now) (spec.blocks_of all.now) result }
{
    let mut standing = schema;
    for item in items {
        standing = behind_item(alloc, standing, item, all)?;
    }
    Ok(standing)
}

/// The schema behind the upgrades of all clients.
fn behind_clients(alloc: Global, schema: Checked, clients: &[Items]) -> Result<Checked, CheckError>
    requires { HasRoom schema.schema (upgrades_of clients.now) }
    ensures { Leads schema.schema schema.repos (upgrades_of clients.now) (spec.blocks_of clients.now) result }
{
    let mut standing = schema;
    for client in clients {
        standing = behind_items(alloc, standing, client.as_slice(), clients)?;
    }
    Ok(standing)
}

/// The fault that is told of the upgrades of a script, from the schema of its setup.
pub fn upgrades_fault(
    alloc: Global,
    schema: &Schema,
    repos: u8,
    clients: &[Items],
) -> Result<Option<RuleFault>, NoMemory>
    requires sound { schema_rules schema.now repos ≡ [] }
    requires room { HasRoom schema.now (upgrades_of clients.now) }
    ensures { IfOk result (λ fault. fault ≡ spec.upgrades_fault schema.now repos (upgrades_of clients.now) (spec.blocks_of clients.now)) }
{
    if upgrade_count(clients) == 0 {
        return Ok(None);
    }
    let checked = Checked::new(schema.copy()?, repos);
    match behind_clients(alloc, checked, clients) {
        Ok(_) => Ok(None),
        Err(CheckError::Broken(fault)) => Ok(Some(fault)),
        Err(CheckError::NoMemory) => Err(NoMemory),
    }
}
