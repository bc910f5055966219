ghost use Rattle.std.specs.Prelude.{◌≡◌, ◌≤◌, ◌<◌, ◌^◌, length, None, IfOk, OnOk, IfErr};
ghost use Rattle.class_defs.specs.Applied.{applied, next_number};
ghost use Rattle.class_defs.specs.UpgradeOrder as spec;
ghost use Rattle.class_defs.specs.UpgradeOrder.{outside_rules, own_fault};
ghost use Rattle.method_check.specs.Told.{Tells};

use crate::applied::apply;
use crate::classes::upgrade_fault;
use crate::inside::inside_fault;
use crate::outside::outside_fault;
use class_defs::{Block, Blocks, Checked, Rule, RuleFault, Schema, Upgrade};
use method_check::CheckError;
use std::alloc::Global;
use thor_value::NoMemory;

/// The schema behind an upgrade that breaks no rule.
#[derive(Debug, Drop)]
pub struct Owned {
    pub checked: Checked,
}

/// O7: what the upgrade doesn't name breaks no rule behind it.
#[tactic(auto, using(crate::proofs::OneTold::outside_told))]
fn breaks_outside(
    alloc: Global,
    upgrade: &Upgrade,
    behind: &Schema,
    repos: u8,
    items: &[Block],
) -> Result<Option<RuleFault>, NoMemory>
    requires { length behind.now.classes ≤ 65536 }
    ensures { IfOk result (λ fault. fault ≡ spec.breaks_outside upgrade.now.line (outside_rules upgrade.now behind.now repos items.now)) }
{
    match outside_fault(alloc, upgrade, behind, repos, items)? {
        None => Ok(None),
        Some(_) => Ok(Some(RuleFault {
            line: upgrade.line,
            rule: Rule::O7,
        })),
    }
}

/// What is told of an upgrade, where this is the schema behind it.
#[tactic(auto, unfolding(class_defs::specs::UpgradeOrder::own_fault))]
fn told(
    alloc: Global,
    schema: &Schema,
    repos: u8,
    upgrade: &Upgrade,
    behind: &Schema,
    items: &[Block],
) -> Result<Option<RuleFault>, NoMemory>
    requires few_classes { length schema.now.classes ≤ 65536 }
    requires few_behind { length behind.now.classes ≤ 65536 }
    requires behind { behind.now ≡ applied schema.now upgrade.now }
    ensures { IfOk result (λ fault. fault ≡ own_fault schema.now repos upgrade.now items.now) }
{
    if let Some(fault) = upgrade_fault(alloc, &schema.classes, upgrade)? {
        return Ok(Some(fault));
    }
    if let Some(fault) = inside_fault(alloc, upgrade, behind, repos)? {
        return Ok(Some(fault));
    }
    breaks_outside(alloc, upgrade, behind, repos, items)
}

/// Checks the rules on an upgrade of a schema, under which the transactions of a script run.
///
/// `Broken` has the least of what it breaks of the rules O1 to O6; where these hold, the least of the rules T
/// that its own fields and methods break behind it; and where these hold, O7.
pub fn own_check(
    alloc: Global,
    schema: &Checked,
    upgrade: &Upgrade,
    items: &Blocks,
) -> Result<Owned, CheckError>
    requires few_classes { length schema.now.schema.classes ≤ 65536 }
    requires few_upgrades { next_number schema.now.schema.upgraded < 2 ^ 32 }
    ensures sound { OnOk result (own_fault schema.now.schema schema.now.repos upgrade.now items.now ≡ None) }
    ensures schema { IfOk result (λ owned. owned.checked.schema ≡ applied schema.now.schema upgrade.now) }
    ensures repos { IfOk result (λ owned. owned.checked.repos ≡ schema.now.repos) }
    ensures broken { IfErr result (λ error. Tells error (own_fault schema.now.schema schema.now.repos upgrade.now items.now)) }
{
    let behind = apply(alloc, &schema.schema, upgrade)?;
    let fault = told(
        alloc,
        &schema.schema,
        schema.repos,
        upgrade,
        &behind,
        items.as_slice(),
    )?;
    match fault {
        Some(fault) => Err(CheckError::Broken(fault)),
        None => {
            let checked = Checked::new(behind, schema.repos);
            Ok(Owned { checked })
        }
    }
}
