ghost use Rattle.std.specs.Prelude.{◌≡◌, Some, option_and_then};
ghost use Rattle.std.specs.Option.{option_copied};
ghost use Rattle.thor_value.specs.FiniteMap.{get};
ghost use Rattle.class_defs.specs.Objects.{fitted_or_beginning};
ghost use Rattle.class_defs.specs.Upgrades.{field_of_object, object_behind, path_value, tf_value};

use class_defs::{
    Classes, ExprType, Name, Names, Object, PlainObjects, Tf, beginning, combined, fitted,
    literal_value, number,
};
use thor_value::Value;

/// The value, or the one with which a field of the type begins where there is none or it is of a wrong kind.
pub fn fitted_or_beginning(kind: ExprType, value: Option<Value>) -> Value
    ensures { result ≡ fitted_or_beginning kind value }
{
    match value {
        Some(value) => fitted(kind, value),
        None => beginning(kind),
    }
}

/// A field of an object, where its class has one of this name.
fn field_of_object(classes: &Classes, object: &Object, name: &Name) -> Option<Value>
    ensures { result ≡ field_of_object classes.now object.now name.now.text }
{
    match classes.get(object.class as usize) {
        Some(class) => match class_defs::field_named(&class.fields, &name.text) {
            Some(place) => object.fields.get(place).copied(),
            None => None,
        },
        None => None,
    }
}

/// A field of an object, where there is an object and its class has a field of this name.
pub fn field_behind(classes: &Classes, object: Option<&Object>, name: &Name) -> Option<Value>
    ensures { result ≡ option_and_then (λ p. field_of_object classes.now p name.now.text) (option_copied object.entry) }
{
    match object {
        Some(object) => field_of_object(classes, object, name),
        None => None,
    }
}

/// The object that a value names, where it names one that is there.
pub fn object_behind<'a>(objects: &'a PlainObjects, value: &Option<Value>) -> Option<&'a Object>
    ensures { option_copied result ≡ object_behind (get objects.now) value.now }
{
    match value {
        Some(Value::Ref(oref)) => objects.get(*oref),
        Some(Value::Int(_)) | Some(Value::Null) | Some(Value::Text(_)) | None => None,
    }
}

/// What a path leads to from an object.
fn path_value<'a>(
    classes: &Classes,
    objects: &'a PlainObjects,
    object: &'a Object,
    names: &Names,
) -> Option<Value>
    ensures { result ≡ path_value classes.now (get objects.now) (Some object.now) names.now }
{
    let mut reached = Some(object);
    let mut value = None;
    for name in names.as_slice() {
        value = field_behind(classes, reached, name);
        reached = object_behind(objects, &value);
    }
    value
}

/// The value of an expression of an upgrade at an object, which reads objects as they were. Nothing where a
/// path meets null.
#[tactic(auto, unfolding(class_defs::specs::Upgrades::tf_value))]
pub fn tf_value(
    classes: &Classes,
    objects: &PlainObjects,
    object: &Object,
    tf: &Tf,
) -> Option<Value>
    ensures { result ≡ tf_value classes.now (get objects.now) object.now tf.now }
{
    match tf {
        Tf::Null { line: _ } => Some(Value::Null),
        Tf::Literal { value, line: _ } => Some(literal_value(*value)),
        Tf::Path { names, line: _ } => path_value(classes, objects, object, names),
        Tf::Parens { inner, line: _ } => tf_value(classes, objects, object, inner.get()),
        Tf::Negate { operand, line: _ } => {
            let value = tf_value(classes, objects, object, operand.get());
            Some(Value::Int(0i64.wrapping_sub(number(value.unwrap_or(Value::Null)))))
        }
        Tf::Binary {
            operator,
            left,
            right,
            line: _,
        } => {
            let first = tf_value(classes, objects, object, left.get());
            let second = tf_value(classes, objects, object, right.get());
            let first = first.unwrap_or(Value::Null);
            Some(combined(*operator, first, second.unwrap_or(Value::Null)))
        }
    }
}
