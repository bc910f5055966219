ghost use Rattle.std.specs.Prelude.{◌≡◌, ◌≤◌, ◌<◌, length, map, IfOk, OnOk};
ghost use Rattle.std.specs.List.{flat_map};
ghost use Rattle.class_defs.specs.Rules as rules;
ghost use Rattle.class_defs.specs.Rules.{least_with};
ghost use Rattle.class_defs.specs.SchemaRules as spec;

use crate::assignments::is_free_type;
use crate::blocks::block;
use crate::body::Body;
use crate::declared::names_of;
use crate::names::{names_in, stand_once};
use class_defs::{
    Classes, Method, NamedType, NamedTypes, Names, Parameter, RuleFault, Schema, type_named,
};
use std::alloc::Global;
use thor_value::{NoMemory, TryCopy};

/// What the words of the parameters' types break.
#[tactic(auto, using(crate::proofs::Pieces::least_append))]
fn parameter_types(classes: &Classes, parameters: &[Parameter], found: &mut Option<RuleFault>)
    requires { length classes.now ≤ 65536 }
    ensures { found.new ≡ least_with found.old (flat_map (λ p. rules.is_free_type classes.now p.type_name) parameters.now) }
{
    for parameter in parameters {
        is_free_type(classes, &parameter.type_name, found);
    }
}

/// What the words of a method's types break.
#[tactic(auto, using(crate::proofs::Pieces::least_append))]
fn method_types(classes: &Classes, method: &Method, found: &mut Option<RuleFault>)
    requires { length classes.now ≤ 65536 }
    ensures { found.new ≡ least_with found.old (spec.method_types classes.now method.now) }
{
    is_free_type(classes, &method.result, found);
    parameter_types(classes, method.parameters.as_slice(), found);
}

/// T1 of a method's parameters and locals.
fn body_names(alloc: Global, method: &Method, found: &mut Option<RuleFault>) -> Result<(), NoMemory>
    ensures { OnOk result (found.new ≡ least_with found.old (spec.body_names method.now)) }
{
    let mut names = Names::new(alloc);
    names_of(method.parameters.as_slice(), &mut names)?;
    names_in(&method.body, &mut names)?;
    stand_once(alloc, &names, 0, found)
}

fn parameter_named(classes: &Classes, parameter: &Parameter) -> NamedType
    requires { length classes.now ≤ 65536 }
    ensures { result ≡ spec.parameter_named classes.now parameter.now }
{
    let kind = type_named(classes, &parameter.type_name);
    let name = parameter.name.text;
    NamedType { name, kind }
}

/// The parameters, as they are in sight in the body.
fn parameters_named(
    alloc: Global,
    classes: &Classes,
    parameters: &[Parameter],
) -> Result<NamedTypes, NoMemory>
    requires { length classes.now ≤ 65536 }
    ensures { IfOk result (λ locals. locals ≡ map (spec.parameter_named classes.now) parameters.now) }
{
    let mut locals = NamedTypes::new(alloc);
    for parameter in parameters {
        locals.push(parameter_named(classes, parameter))?;
    }
    Ok(locals)
}

/// What the statements of a method break.
fn method_body(
    alloc: Global,
    schema: &Schema,
    repos: u8,
    class: u16,
    method: &Method,
    found: &mut Option<RuleFault>,
) -> Result<(), NoMemory>
    requires { length schema.now.classes ≤ 65536 }
    ensures { OnOk result (found.new ≡ least_with found.old (spec.body_rules schema.now repos class method.now)) }
{
    let body = Body {
        schema,
        repos,
        this: Some(class),
        result: type_named(&schema.classes, &method.result),
    };
    let mut locals = parameters_named(alloc, &schema.classes, method.parameters.as_slice())?;
    block(&body, &mut locals, &method.body, found)
}

/// What a method breaks.
#[tactic(auto, using(crate::proofs::Pieces::least_append), unfolding(class_defs::specs::SchemaRules::method_rules))]
pub fn method_rules(
    alloc: Global,
    schema: &Schema,
    repos: u8,
    class: u16,
    method: &Method,
    found: &mut Option<RuleFault>,
) -> Result<(), NoMemory>
    requires { length schema.now.classes ≤ 65536 }
    ensures { OnOk result (found.new ≡ least_with found.old (spec.method_rules schema.now repos class method.now)) }
{
    method_types(&schema.classes, method, found);
    body_names(alloc, method, found)?;
    method_body(alloc, schema, repos, class, method, found)
}
