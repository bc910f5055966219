ghost use Rattle.std.specs.Prelude.{◌≡◌, ◌≤◌, ◌<◌, length, map, OnOk};
ghost use Rattle.std.specs.List.{flat_map};
ghost use Rattle.class_defs.specs.Rules as rules;
ghost use Rattle.class_defs.specs.Rules.{least_with};
ghost use Rattle.class_defs.specs.SchemaRules as spec;

use crate::declared::names_of;
use crate::methods::method_rules;
use crate::names::stand_once;
use crate::nodes::is_word;
use class_defs::{Class, Classes, Field, Method, Names, RuleFault, Schema, TypeName};
use std::alloc::Global;
use thor_value::NoMemory;

/// T2 of the word of a field's type.
fn is_type(classes: &Classes, type_name: &TypeName, found: &mut Option<RuleFault>)
    requires { length classes.now ≤ 65536 }
    ensures { found.new ≡ least_with found.old (rules.is_type classes.now type_name.now) }
{
    match type_name {
        TypeName::Int { line: _ } => {}
        TypeName::Class { name } => is_word(classes, name, found),
    }
}

/// What the words of the fields' types break.
#[tactic(auto, using(crate::proofs::Pieces::least_append))]
fn field_types(classes: &Classes, fields: &[Field], found: &mut Option<RuleFault>)
    requires { length classes.now ≤ 65536 }
    ensures { found.new ≡ least_with found.old (flat_map (λ f. rules.is_type classes.now f.type_name) fields.now) }
{
    for field in fields {
        is_type(classes, &field.type_name, found);
    }
}

/// T1 of a class's fields and methods.
fn member_names(alloc: Global, class: &Class, found: &mut Option<RuleFault>) -> Result<(), NoMemory>
    ensures { OnOk result (found.new ≡ least_with found.old (spec.member_names class.now)) }
{
    let mut names = Names::new(alloc);
    names_of(class.fields.as_slice(), &mut names)?;
    names_of(class.methods.as_slice(), &mut names)?;
    stand_once(alloc, &names, 0, found)
}

/// What the methods of a class break.
#[tactic(auto, using(crate::proofs::Pieces::least_append))]
pub fn methods(
    alloc: Global,
    schema: &Schema,
    repos: u8,
    class: u16,
    methods: &[Method],
    found: &mut Option<RuleFault>,
) -> Result<(), NoMemory>
    requires { length schema.now.classes ≤ 65536 }
    ensures { OnOk result (found.new ≡ least_with found.old (flat_map (spec.method_rules schema.now repos class) methods.now)) }
{
    for method in methods {
        method_rules(alloc, schema, repos, class, method, found)?;
    }
    Ok(())
}

/// What a class breaks.
#[tactic(auto, using(crate::proofs::Pieces::least_append), unfolding(class_defs::specs::SchemaRules::class_rules))]
pub fn class_rules(
    alloc: Global,
    schema: &Schema,
    repos: u8,
    number: u16,
    class: &Class,
    found: &mut Option<RuleFault>,
) -> Result<(), NoMemory>
    requires { length schema.now.classes ≤ 65536 }
    ensures { OnOk result (found.new ≡ least_with found.old (spec.class_rules schema.now repos number class.now)) }
{
    member_names(alloc, class, found)?;
    field_types(&schema.classes, class.fields.as_slice(), found);
    methods(
        alloc,
        schema,
        repos,
        number,
        class.methods.as_slice(),
        found,
    )
}

/// What the classes of a schema break.
#[tactic(auto, using(crate::proofs::Pieces::least_append))]
pub fn classes(
    alloc: Global,
    schema: &Schema,
    repos: u8,
    found: &mut Option<RuleFault>,
) -> Result<(), NoMemory>
    requires { length schema.now.classes ≤ 65536 }
    ensures { OnOk result (found.new ≡ least_with found.old (spec.classes_from schema.now repos 0 schema.now.classes)) }
{
    for (place, class) in schema.classes.as_slice().iter().enumerate() {
        class_rules(alloc, schema, repos, place as u16, class, found)?;
    }
    Ok(())
}
