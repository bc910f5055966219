ghost use Rattle.std.specs.Prelude.{◌≡◌, ◌==◌, ◌++◌, ◌≤◌, length, [], OnOk};
ghost use Rattle.std.specs.List.{flat_map, list_any};
ghost use Rattle.class_defs.specs.Types as types;
ghost use Rattle.class_defs.specs.Rules.{least_with};
ghost use Rattle.class_defs.specs.UpgradeRules as spec;

use crate::expressions::{
    field_read, first_line, gives_int, gives_reference, gives_text, reads_parts,
};
use class_defs::{Classes, ExprType, FieldUpgrade, Rule, RuleFault, Tf, type_named};
use method_check::{is_part, must};
use std::alloc::Global;
use thor_value::{NoMemory, Sequence};

/// The rule on references to objects of a part class, or of a free one.
fn reference_rule(part: bool) -> Rule
    ensures { result ≡ spec.reference_rule part }
{
    if part { Rule::O6 } else { Rule::O3 }
}

/// O2, O3 and O6: the expression of a new field fits its type.
fn value_rules(
    classes: &Classes,
    class: u16,
    kind: ExprType,
    value: &Tf,
    found: &mut Option<RuleFault>,
)
    requires { length classes.now ≤ 65536 }
    ensures { found.new ≡ least_with found.old (spec.value_rules classes.now class kind value.now) }
{
    match kind {
        ExprType::Int => {
            let holds = gives_int(classes, class, value);
            must(holds, Rule::O2, first_line(value), found);
        }
        ExprType::Text => {
            let holds = gives_text(classes, class, value);
            must(holds, Rule::O2, first_line(value), found);
        }
        ExprType::Class(other) => {
            let holds = gives_reference(classes, class, other, value);
            let rule = reference_rule(is_part(classes, kind));
            must(holds, rule, first_line(value), found);
        }
        ExprType::Null => {}
        ExprType::Untold => {}
    }
}

/// The rules that the expression of a new field breaks by itself.
#[tactic(auto, using(method_check::proofs::Pieces::least_append))]
fn field_rules(classes: &Classes, class: u16, field: &FieldUpgrade, found: &mut Option<RuleFault>)
    requires { length classes.now ≤ 65536 }
    ensures { found.new ≡ least_with found.old (spec.field_rules classes.now class field.now) }
{
    let kind = type_named(classes, &field.type_name);
    value_rules(classes, class, kind, &field.value, found);
    let holds = reads_parts(classes, class, &field.value);
    must(holds, Rule::O4, first_line(&field.value), found);
}

/// The rules that the expressions of new fields break by themselves.
pub fn each_field(
    classes: &Classes,
    class: u16,
    fields: &[FieldUpgrade],
    found: &mut Option<RuleFault>,
)
    requires { length classes.now ≤ 65536 }
    ensures { found.new ≡ least_with found.old (flat_map (spec.field_rules classes.now class) fields.now) }
{
    for field in fields {
        field_rules(classes, class, field, found);
    }
}

/// The owned field that a new field takes over from the old object, if it takes over one.
fn hands_over(classes: &Classes, class: u16, field: &FieldUpgrade) -> Option<usize>
    requires { length classes.now ≤ 65536 }
    ensures { result ≡ spec.hands_over classes.now class field.now }
{
    match type_named(classes, &field.type_name) {
        ExprType::Int => None,
        ExprType::Text => None,
        ExprType::Null => None,
        ExprType::Untold => None,
        ExprType::Class(other) => {
            if is_part(classes, ExprType::Class(other))
                && gives_reference(classes, class, other, &field.value)
            {
                field_read(classes, class, &field.value)
            } else {
                None
            }
        }
    }
}

/// Whether a place is one of several.
fn is_among(places: &[usize], place: usize) -> bool
    ensures { result ≡ list_any (λ j. j == place) places.now }
{
    places.iter().any(|other| *other == place)
}

/// Whether a field isn't among those that were taken over earlier.
fn is_new(earlier: &[usize], field: Option<usize>) -> bool
    ensures { result ≡ spec.is_new earlier.now field }
{
    match field {
        None => true,
        Some(place) => !is_among(earlier, place),
    }
}

/// Puts a field that is taken over behind the earlier ones.
fn take_over(earlier: &mut Sequence<usize>, field: Option<usize>) -> Result<(), NoMemory>
    ensures { OnOk result (earlier.new ≡ earlier.old ++ spec.as_list field) }
{
    match field {
        None => Ok(()),
        Some(place) => earlier.push(place),
    }
}

/// O5: what a new field takes over isn't taken over by an earlier one.
pub fn handed_once(
    alloc: Global,
    classes: &Classes,
    class: u16,
    fields: &[FieldUpgrade],
    found: &mut Option<RuleFault>,
) -> Result<(), NoMemory>
    requires { length classes.now ≤ 65536 }
    ensures { OnOk result (found.new ≡ least_with found.old (spec.handed_once classes.now class [] fields.now)) }
{
    let mut earlier = Sequence::new(alloc);
    for field in fields {
        let over = hands_over(classes, class, field);
        let holds = is_new(earlier.as_slice(), over);
        must(holds, Rule::O5, first_line(&field.value), found);
        take_over(&mut earlier, over)?;
    }
    Ok(())
}
