ghost use Rattle.std.specs.Prelude.{◌≡◌, ◌≤◌, length, IfOk, OnOk};
ghost use Rattle.class_defs.specs.Rules.{least, least_with};
ghost use Rattle.class_defs.specs.UpgradeOrder as spec;
ghost use Rattle.class_defs.specs.UpgradeOrder.{inside_rules};

use crate::applied::said_of;
use class_defs::{Class, RuleFault, Schema, Upgrade};
use method_check::class_rules;
use std::alloc::Global;
use thor_value::NoMemory;

/// What is in a class breaks, where the upgrade names the class.
fn inside_class(
    alloc: Global,
    upgrade: &Upgrade,
    schema: &Schema,
    repos: u8,
    number: u16,
    class: &Class,
    found: &mut Option<RuleFault>,
) -> Result<(), NoMemory>
    requires { length schema.now.classes ≤ 65536 }
    ensures { OnOk result (found.new ≡ least_with found.old (spec.inside_class upgrade.now schema.now repos number class.now)) }
{
    match said_of(upgrade, class) {
        Some(_) => class_rules(alloc, schema, repos, number, class, found),
        None => Ok(()),
    }
}

/// The fault that is told of the rules T that the upgrade's own fields and methods break on the schema
/// behind it.
#[tactic(auto, unfolding(class_defs::specs::UpgradeOrder::inside_rules))]
pub fn inside_fault(
    alloc: Global,
    upgrade: &Upgrade,
    schema: &Schema,
    repos: u8,
) -> Result<Option<RuleFault>, NoMemory>
    requires { length schema.now.classes ≤ 65536 }
    ensures { IfOk result (λ fault. fault ≡ least (inside_rules upgrade.now schema.now repos)) }
{
    let mut found = None;
    for (place, class) in schema.classes.as_slice().iter().enumerate() {
        inside_class(
            alloc,
            upgrade,
            schema,
            repos,
            place as u16,
            class,
            &mut found,
        )?;
    }
    Ok(found)
}
