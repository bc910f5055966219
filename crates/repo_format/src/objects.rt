//! Objects as they begin.

ghost use Rattle.std.specs.List.{AllByRecursion};
ghost use Rattle.std.specs.Prelude.{◌≡◌, ◌≤◌, IfOk, length, map};
ghost use Rattle.class_defs.specs.Steps.{beginning};
ghost use Rattle.class_defs.specs.Types.{type_named};
ghost use Rattle.repo_format.specs.Pages.{first_object};
ghost use Rattle.object_codec.specs.Spelling.{ObjFits, most_fields};
ghost use Rattle.thor_value.specs.Spelling.{ValueFits};

use class_defs::{Classes, Field, TypeName, first_value};
use std::alloc::Global;
use thor_value::{NoMemory, Obj, Value, Values};

/// The most fields of an object.
const MOST_FIELDS: usize = 32;

/// An object of a class as it begins.
pub(crate) fn first_object(alloc: Global, classes: &Classes, class: u16) -> Result<Obj, NoMemory>
    ensures fits { IfOk result ObjFits }
    ensures object { IfOk result (λ object. object ≡ first_object classes.now class) }
{
    let fields = match classes.get(usize::from(class)) {
        Some(class) => first_fields(alloc, classes, class.fields.as_slice())?,
        None => Values::new(alloc),
    };
    Ok(Obj {
        class,
        ver: 0,
        fields,
    })
}

/// The fields with which an object of a class begins. Want of memory, too, where they are more than an object
/// can have.
fn first_fields(alloc: Global, classes: &Classes, declared: &[Field]) -> Result<Values, NoMemory>
    ensures count { IfOk result (λ fields. length fields ≤ most_fields) }
    ensures fit { IfOk result (AllByRecursion ValueFits) }
    ensures fields { IfOk result (λ fields. fields ≡ map (λ f. beginning (type_named classes.now f.type_name)) declared.now) }
{
    let mut fields = Values::new(alloc);
    if declared.len() > MOST_FIELDS {
        return Err(NoMemory);
    }
    for field in declared {
        fields.push(begun(classes, &field.type_name))?;
    }
    Ok(fields)
}

/// The value with which a field of a type begins.
#[tactic(auto, using(crate::proofs::Roots::begins_fit))]
fn begun(classes: &Classes, type_name: &TypeName) -> Value
    ensures fits { ValueFits result }
    ensures value { result ≡ beginning (type_named classes.now type_name.now) }
{
    first_value(classes, type_name)
}
