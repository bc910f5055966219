ghost use Rattle.std.specs.Prelude.{◌≡◌, ◌&&◌, ◌≤◌, length, is_some, not, map, [], OnOk, IfOk};
ghost use Rattle.std.specs.List.{flat_map, list_any};
ghost use Rattle.std.specs.Str.{bytes_eq};
ghost use Rattle.class_defs.specs.Types as types;
ghost use Rattle.class_defs.specs.Rules.{least, least_with, must};
ghost use Rattle.class_defs.specs.UpgradeRules as spec;
ghost use Rattle.class_defs.specs.UpgradeRules.{upgrade_rules};
ghost use Rattle.class_defs.specs.declared.rules.Rule.TheVariants.{O1};

use crate::fields::{each_field, handed_once};
use class_defs::{ClassUpgrade, Classes, Name, Rule, RuleFault, Upgrade, class_named};
use method_check::must;
use std::alloc::Global;
use thor_value::NoMemory;

/// Whether one of these has this name.
fn is_among(earlier: &[ClassUpgrade], name: &Name) -> bool
    ensures { result ≡ list_any (λ k. bytes_eq k.name.text name.now.text) earlier.now }
{
    earlier.iter().any(|other| other.name.text.is(&name.text))
}

/// O1 of one name behind earlier ones.
fn is_class_once(
    classes: &Classes,
    earlier: &[ClassUpgrade],
    said: &ClassUpgrade,
    found: &mut Option<RuleFault>,
)
    requires { length classes.now ≤ 65536 }
    ensures { found.new ≡ least_with found.old (must (
        is_some (types.class_named classes.now said.now.name.text) && not (list_any (λ k. bytes_eq k.name.text said.now.name.text) earlier.now)
        ) O1 said.now.name.line) }
{
    let name = &said.name;
    let there = class_named(classes, &name.text).is_some();
    must(
        there && !is_among(earlier, name),
        Rule::O1,
        name.line,
        found,
    );
}

/// O1 of the names of the classes.
fn named_once(classes: &Classes, said: &[ClassUpgrade], found: &mut Option<RuleFault>)
    requires { length classes.now ≤ 65536 }
    ensures { found.new ≡ least_with found.old (spec.named_once classes.now [] (map (λ k. k.name) said.now)) }
{
    for place in 0..said.len() {
        is_class_once(classes, &said[..place], &said[place], found);
    }
}

/// The rules that the new fields of one class break.
#[tactic(auto, using(method_check::proofs::Pieces::least_append))]
fn class_upgrade_rules(
    alloc: Global,
    classes: &Classes,
    said: &ClassUpgrade,
    found: &mut Option<RuleFault>,
) -> Result<(), NoMemory>
    requires { length classes.now ≤ 65536 }
    ensures { OnOk result (found.new ≡ least_with found.old (spec.class_upgrade_rules classes.now said.now)) }
{
    match class_named(classes, &said.name.text) {
        None => Ok(()),
        Some(class) => {
            let fields = said.fields.as_slice();
            each_field(classes, class, fields, found);
            handed_once(alloc, classes, class, fields, found)
        }
    }
}

/// The rules that the new fields break.
fn each_class(
    alloc: Global,
    classes: &Classes,
    said: &[ClassUpgrade],
    found: &mut Option<RuleFault>,
) -> Result<(), NoMemory>
    requires { length classes.now ≤ 65536 }
    ensures { OnOk result (found.new ≡ least_with found.old (flat_map (spec.class_upgrade_rules classes.now) said.now)) }
{
    for class in said {
        class_upgrade_rules(alloc, classes, class, found)?;
    }
    Ok(())
}

/// The fault that is told of the rules O1 to O6.
#[tactic(auto, using(method_check::proofs::Pieces::least_append), unfolding(class_defs::specs::UpgradeRules::upgrade_rules))]
pub fn upgrade_fault(
    alloc: Global,
    classes: &Classes,
    upgrade: &Upgrade,
) -> Result<Option<RuleFault>, NoMemory>
    requires { length classes.now ≤ 65536 }
    ensures { IfOk result (λ fault. fault ≡ least (upgrade_rules classes.now upgrade.now)) }
{
    let mut found = None;
    let said = upgrade.classes.as_slice();
    named_once(classes, said, &mut found);
    each_class(alloc, classes, said, &mut found)?;
    Ok(found)
}
