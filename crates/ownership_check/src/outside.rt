ghost use Rattle.std.specs.Prelude.{◌≡◌, ◌≤◌, length, IfOk, OnOk};
ghost use Rattle.std.specs.List.{flat_map};
ghost use Rattle.class_defs.specs.Rules.{least, least_with};
ghost use Rattle.class_defs.specs.SchemaRules.{item_rules};
ghost use Rattle.class_defs.specs.UpgradeOrder as spec;
ghost use Rattle.class_defs.specs.UpgradeOrder.{outside_rules};

use crate::applied::said_of;
use class_defs::{Block, Class, RuleFault, Schema, Upgrade};
use method_check::{methods_rules, note_item};
use std::alloc::Global;
use thor_value::NoMemory;

/// What the methods of a class break, where the upgrade doesn't name the class.
fn outside_class(
    alloc: Global,
    upgrade: &Upgrade,
    schema: &Schema,
    repos: u8,
    number: u16,
    class: &Class,
    found: &mut Option<RuleFault>,
) -> Result<(), NoMemory>
    requires { length schema.now.classes ≤ 65536 }
    ensures { OnOk result (found.new ≡ least_with found.old (spec.outside_class upgrade.now schema.now repos number class.now)) }
{
    match said_of(upgrade, class) {
        Some(_) => Ok(()),
        None => methods_rules(
            alloc,
            schema,
            repos,
            number,
            class.methods.as_slice(),
            found,
        ),
    }
}

/// What the methods of the classes break that the upgrade doesn't name.
fn classes_outside(
    alloc: Global,
    upgrade: &Upgrade,
    schema: &Schema,
    repos: u8,
    found: &mut Option<RuleFault>,
) -> Result<(), NoMemory>
    requires { length schema.now.classes ≤ 65536 }
    ensures { OnOk result (found.new ≡ least_with found.old (spec.over_classes (spec.outside_class upgrade.now schema.now repos) 0 schema.now.classes)) }
{
    for (place, class) in schema.classes.as_slice().iter().enumerate() {
        outside_class(alloc, upgrade, schema, repos, place as u16, class, found)?;
    }
    Ok(())
}

/// What the items break.
fn items_outside(
    alloc: Global,
    schema: &Schema,
    repos: u8,
    items: &[Block],
    found: &mut Option<RuleFault>,
) -> Result<(), NoMemory>
    requires { length schema.now.classes ≤ 65536 }
    ensures { OnOk result (found.new ≡ least_with found.old (flat_map (item_rules schema.now repos) items.now)) }
{
    for item in items {
        note_item(alloc, schema, item, repos, found)?;
    }
    Ok(())
}

/// One of the faults of the methods of other classes, and of the items, on the schema behind an upgrade.
#[tactic(auto, using(method_check::proofs::Pieces::least_append), unfolding(class_defs::specs::UpgradeOrder::outside_rules))]
pub fn outside_fault(
    alloc: Global,
    upgrade: &Upgrade,
    schema: &Schema,
    repos: u8,
    items: &[Block],
) -> Result<Option<RuleFault>, NoMemory>
    requires { length schema.now.classes ≤ 65536 }
    ensures { IfOk result (λ fault. fault ≡ least (outside_rules upgrade.now schema.now repos items.now)) }
{
    let mut found = None;
    classes_outside(alloc, upgrade, schema, repos, &mut found)?;
    items_outside(alloc, schema, repos, items, &mut found)?;
    Ok(found)
}
