//! What runs and upgrades do with values.

ghost use Rattle.std.specs.Prelude.{◌≡◌, ◌++◌, map, pos, OnOk};
ghost use Rattle.class_defs.specs.Expressions.{combined, same_value, truth};
ghost use Rattle.class_defs.specs.Kinds.{literal_type, literal_value, printed_as};
ghost use Rattle.class_defs.specs.Steps.{beginning, fitted, number};

use crate::expressions::Operator;
use crate::literals::Literal;
use crate::types::ExprType;
use thor_value::{Ints, NoMemory, Value, Word};

/// The number that a value is: 0 for one that is none.
pub fn number(value: Value) -> i64
    ensures { result ≡ number value }
{
    match value {
        Value::Int(n) => n,
        Value::Ref(_) | Value::Null | Value::Text(_) => 0,
    }
}

fn same_value(left: &Value, right: &Value) -> bool
    ensures { result ≡ same_value left.now right.now }
{
    match (left, right) {
        (Value::Int(a), Value::Int(b)) => a == b,
        (Value::Ref(a), Value::Ref(b)) => a.cmp(b).is_eq(),
        (Value::Null, Value::Null) => true,
        (Value::Text(a), Value::Text(b)) => a.bytes() == b.bytes(),
        (_, _) => false,
    }
}

fn truth(holds: bool) -> Value
    ensures { result ≡ truth holds }
{
    if holds { Value::Int(1) } else { Value::Int(0) }
}

/// The value of an operator at two values. Numbers wrap.
pub fn combined(operator: Operator, left: Value, right: Value) -> Value
    ensures { result ≡ combined operator left right }
{
    match operator {
        Operator::Add => Value::Int(number(left).wrapping_add(number(right))),
        Operator::Subtract => Value::Int(number(left).wrapping_sub(number(right))),
        Operator::Multiply => Value::Int(number(left).wrapping_mul(number(right))),
        Operator::Equal => truth(same_value(&left, &right)),
        Operator::Unequal => truth(!same_value(&left, &right)),
        Operator::Less => truth(number(left) < number(right)),
    }
}

/// The value that a literal stands for.
pub fn literal_value(literal: Literal) -> Value
    ensures { result ≡ literal_value literal }
{
    match literal {
        Literal::Int(number) => Value::Int(number),
        Literal::Text(word) => Value::Text(word),
    }
}

/// The type of the value that a literal stands for.
pub fn literal_type(literal: Literal) -> ExprType
    ensures { result ≡ literal_type literal }
{
    match literal {
        Literal::Int(_) => ExprType::Int,
        Literal::Text(_) => ExprType::Text,
    }
}

/// The value with which a field of a type begins.
pub fn beginning(kind: ExprType) -> Value
    ensures { result ≡ beginning kind }
{
    match kind {
        ExprType::Int => Value::Int(0),
        ExprType::Text => Value::Text(Word::empty()),
        ExprType::Null | ExprType::Class(_) | ExprType::Untold => Value::Null,
    }
}

/// The value, or the one with which a field of the type begins where it is of a wrong kind.
pub fn fitted(kind: ExprType, value: Value) -> Value
    ensures { result ≡ fitted kind value }
{
    match (kind, value) {
        (ExprType::Int, Value::Int(n)) => Value::Int(n),
        (ExprType::Text, Value::Text(word)) => Value::Text(word),
        (ExprType::Class(_), Value::Ref(oref)) => Value::Ref(oref),
        (_, _) => beginning(kind),
    }
}

/// Puts what printing a value adds behind the numbers: a number itself, and of a text how many bytes it has and then
/// these. After `NoMemory` some of them may stand there.
pub fn push_printed(value: Value, out: &mut Ints) -> Result<(), NoMemory>
    ensures { OnOk result (out.new ≡ out.old ++ printed_as value) }
{
    match value {
        Value::Int(n) => out.push(n),
        Value::Ref(_) => out.push(0),
        Value::Null => out.push(0),
        Value::Text(word) => {
            out.push(i64::from(word.len()))?;
            push_bytes(word.bytes(), out)
        }
    }
}

/// Puts bytes as numbers behind the numbers. After `NoMemory` some of them may stand there.
fn push_bytes(bytes: &[u8], out: &mut Ints) -> Result<(), NoMemory>
    ensures { OnOk result (out.new ≡ out.old ++ map pos bytes.now) }
{
    for byte in bytes {
        out.push(i64::from(*byte))?;
    }
    Ok(())
}
