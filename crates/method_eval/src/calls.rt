ghost use Rattle.std.specs.Prelude.{◌≡◌, IfOk, slice_get, drop};
ghost use Rattle.std.specs.Option.{option_copied};
ghost use Rattle.class_defs.specs.Calls.{owners_at, owners_through, bound, parameter, result_of};

use crate::objects::same_oref;
use crate::types::type_named;
use crate::world::Program;
use class_defs::{
    ClassKind, Flow, Local, Locals, Machine, Method, Parameter, Parameters, Receiver, beginning,
};
use thor_value::{NoMemory, Oref, Orefs, TryCopy, Value, Values};

/// The owners of a part that is reached through `this`, or is `this` itself.
fn owners_through(program: &Program<'_>, oref: Oref, this: &Receiver) -> Result<Orefs, NoMemory>
    ensures { IfOk result (λ owners. owners ≡ owners_through oref this.now) }
{
    if same_oref(oref, this.oref) {
        return this.owners.copy();
    }
    let mut owners = Orefs::new(program.alloc);
    owners.push(this.oref)?;
    owners.append(this.owners.copy()?)?;
    Ok(owners)
}

/// The owners of a part that is called, nearest first; none for a free object.
#[tactic(auto, unfolding(class_defs::specs::Calls::owners_at))]
pub fn owners_at(
    program: &Program<'_>,
    class: u16,
    oref: Oref,
    machine: &Machine,
) -> Result<Orefs, NoMemory>
    ensures { IfOk result (λ owners. owners ≡ owners_at program.now.schema.now.classes class oref machine.now) }
{
    if let Some(found) = program.schema.classes.get(class as usize) {
        if let ClassKind::Part = found.kind {
            if let Some(this) = &machine.this {
                return owners_through(program, oref, this);
            }
        }
    }
    Ok(Orefs::new(program.alloc))
}

fn parameter_with(program: &Program<'_>, declared: &Parameter, argument: Option<&Value>) -> Local
    ensures { result ≡ parameter program.now.schema.now.classes declared.now (option_copied argument.entry) }
{
    let kind = type_named(program, &declared.type_name);
    let value = match argument {
        Some(value) => *value,
        None => beginning(kind),
    };
    Local {
        name: declared.name.text,
        kind,
        value,
    }
}

/// The parameters with their arguments; one that is missing begins as a field does.
pub fn bound(
    program: &Program<'_>,
    parameters: &Parameters,
    arguments: &Values,
) -> Result<Locals, NoMemory>
    ensures { IfOk result (λ locals. locals ≡ bound program.now.schema.now.classes parameters.now arguments.now) }
{
    let mut locals = Locals::new(program.alloc);
    for (place, parameter) in parameters.as_slice().iter().enumerate() {
        locals.push(parameter_with(program, parameter, arguments.get(place)))?;
    }
    Ok(locals)
}

/// The result of a body that ended.
pub fn result_of(program: &Program<'_>, method: &Method, flow: Flow) -> Value
    ensures { result ≡ result_of program.now.schema.now.classes method.now flow }
{
    match flow {
        Flow::Returned(value) => value,
        Flow::Next => beginning(type_named(program, &method.result)),
    }
}
