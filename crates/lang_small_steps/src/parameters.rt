//! Parameters with the types that their words name.

ghost use Rattle.std.specs.Prelude.{◌≡◌, ◌≤◌, length, map, IfOk};
ghost use Rattle.std.specs.Option.{option_copied};
ghost use Rattle.lang_small_steps.specs.Typed.{local_of, locals_from, typed_parameter};

use class_defs::{Classes, ExprType, Local, Locals, Parameter, Parameters, beginning, type_named};
use std::alloc::Global;
use thor_value::{NoMemory, Sequence, TryCopy, Value, Values};

/// A parameter of a method with its type.
#[derive(Drop)]
pub struct TypedParameter {
    pub declared: Parameter,
    /// The type that its word names among the classes of the schema.
    pub kind: ExprType,
}

/// The parameters of a method, in order.
pub type TypedParameters = Sequence<TypedParameter>;

/// A copy of a parameter, with the type that its word names among these classes.
fn typed_parameter(classes: &Classes, declared: &Parameter) -> Result<TypedParameter, NoMemory>
    requires { length classes.now ≤ 65536 }
    ensures { IfOk result (λ parameter. parameter ≡ typed_parameter classes.now declared.now) }
{
    Ok(TypedParameter {
        declared: declared.copy()?,
        kind: type_named(classes, &declared.type_name),
    })
}

/// Copies of parameters, with the types that their words name among these classes.
pub fn typed_parameters(
    alloc: Global,
    classes: &Classes,
    parameters: &Parameters,
) -> Result<TypedParameters, NoMemory>
    requires { length classes.now ≤ 65536 }
    ensures { IfOk result (λ copied. copied ≡ map (typed_parameter classes.now) parameters.now) }
{
    let mut copied = Sequence::new(alloc);
    for declared in parameters.as_slice() {
        copied.push(typed_parameter(classes, declared)?)?;
    }
    Ok(copied)
}

/// A parameter with its argument; one that is missing begins as a field does.
fn local_of(parameter: &TypedParameter, argument: Option<&Value>) -> Local
    ensures { result ≡ local_of parameter.now (option_copied argument.entry) }
{
    let value = match argument {
        Some(value) => *value,
        None => beginning(parameter.kind),
    };
    Local {
        name: parameter.declared.name.text,
        kind: parameter.kind,
        value,
    }
}

/// The parameters with their arguments.
pub fn locals_of(
    alloc: Global,
    parameters: &TypedParameters,
    arguments: &Values,
) -> Result<Locals, NoMemory>
    ensures { IfOk result (λ locals. locals ≡ locals_from 0 parameters.now arguments.now) }
{
    let mut locals = Locals::new(alloc);
    for (place, parameter) in parameters.as_slice().iter().enumerate() {
        locals.push(local_of(parameter, arguments.get(place)))?;
    }
    Ok(locals)
}
