ghost use Rattle.std.specs.Prelude.{◌≡◌, ◌≤◌, length, option_and_then, option_map};
ghost use Rattle.std.specs.Option.{option_copied};
ghost use Rattle.class_defs.specs.ExpressionRules as expression_rules;
ghost use Rattle.class_defs.specs.Rules as rules;
ghost use Rattle.class_defs.specs.Types as types;
ghost use Rattle.method_check.specs.Bodies.{sight};

use crate::body::Body;
use class_defs::{
    ClassKind, Classes, ExprType, Field, Method, Name, NamedType, NamedTypes, Operator,
    RootDeclaration, type_named, word_type,
};

/// Whether a type can be told.
pub fn is_told(kind: ExprType) -> bool
    ensures { result ≡ rules.is_told kind }
{
    match kind {
        ExprType::Int | ExprType::Text | ExprType::Null | ExprType::Class(_) => true,
        ExprType::Untold => false,
    }
}

/// Whether a type may be that of a root: it is neither a part class nor that of texts.
pub fn is_root_type(classes: &Classes, kind: ExprType) -> bool
    ensures { result ≡ rules.is_root_type classes.now kind }
{
    match kind {
        ExprType::Text => false,
        ExprType::Class(_) => !is_part(classes, kind),
        ExprType::Int | ExprType::Null | ExprType::Untold => true,
    }
}

/// Whether a type is a part class.
pub fn is_part(classes: &Classes, kind: ExprType) -> bool
    ensures { result ≡ rules.is_part classes.now kind }
{
    match kind {
        ExprType::Class(class) => match classes.get(class as usize) {
            Some(found) => match found.kind {
                ClassKind::Part => true,
                ClassKind::Free => false,
            },
            None => false,
        },
        ExprType::Int | ExprType::Text | ExprType::Null | ExprType::Untold => false,
    }
}

/// Whether a value of a type may stand where the first type is declared.
pub fn fits(declared: ExprType, given: ExprType) -> bool
    ensures { result ≡ rules.fits declared given }
{
    match (declared, given) {
        (ExprType::Int, ExprType::Int) => true,
        (ExprType::Int, ExprType::Text) => false,
        (ExprType::Int, ExprType::Null) => false,
        (ExprType::Int, ExprType::Class(_)) => false,
        (ExprType::Int, ExprType::Untold) => true,
        (ExprType::Text, ExprType::Int) => false,
        (ExprType::Text, ExprType::Text) => true,
        (ExprType::Text, ExprType::Null) => false,
        (ExprType::Text, ExprType::Class(_)) => false,
        (ExprType::Text, ExprType::Untold) => true,
        (ExprType::Class(_), ExprType::Int) => false,
        (ExprType::Class(_), ExprType::Text) => false,
        (ExprType::Class(_), ExprType::Null) => true,
        (ExprType::Class(class), ExprType::Class(other)) => class == other,
        (ExprType::Class(_), ExprType::Untold) => true,
        (ExprType::Null, _) => true,
        (ExprType::Untold, _) => true,
    }
}

/// Whether an expression of this type can be a number.
pub fn is_number(kind: ExprType) -> bool
    ensures { result ≡ expression_rules.is_number kind }
{
    fits(ExprType::Int, kind)
}

/// Whether an expression of this type can be printed: a number or a text.
pub fn is_printable(kind: ExprType) -> bool
    ensures { result ≡ expression_rules.is_printable kind }
{
    is_number(kind) || fits(ExprType::Text, kind)
}

/// Whether two values can be compared by `==` and `!=`.
fn comparable(classes: &Classes, left: ExprType, right: ExprType) -> bool
    ensures { result ≡ expression_rules.comparable classes.now left right }
{
    match (left, right) {
        (ExprType::Int, other) => is_number(other),
        (ExprType::Text, other) => fits(ExprType::Text, other),
        (ExprType::Null, ExprType::Int) => false,
        (ExprType::Null, ExprType::Text) => false,
        (ExprType::Null, ExprType::Null) => false,
        (ExprType::Null, ExprType::Class(_)) => true,
        (ExprType::Null, ExprType::Untold) => true,
        (ExprType::Class(_), ExprType::Int) => false,
        (ExprType::Class(_), ExprType::Text) => false,
        (ExprType::Class(_), ExprType::Null) => true,
        (ExprType::Class(class), ExprType::Class(other)) => {
            class == other && !is_part(classes, left)
        }
        (ExprType::Class(_), ExprType::Untold) => true,
        (ExprType::Untold, _) => true,
    }
}

/// Whether an operator takes values of these types.
pub fn takes(classes: &Classes, operator: Operator, left: ExprType, right: ExprType) -> bool
    ensures { result ≡ expression_rules.takes classes.now operator left right }
{
    match operator {
        Operator::Add | Operator::Subtract | Operator::Multiply | Operator::Less => {
            is_number(left) && is_number(right)
        }
        Operator::Equal | Operator::Unequal => comparable(classes, left, right),
    }
}

/// The field of `this` with this name.
pub fn field_in_sight<'a>(body: &Body<'a>, name: &Name) -> Option<&'a Field>
    ensures { option_copied result ≡ option_and_then (λ c. types.field_of body.now.schema.now.classes c name.now.text) body.now.this }
{
    match body.this {
        Some(class) => match body.schema.classes.get(class as usize) {
            Some(found) => class_defs::field_of(&found.fields, &name.text),
            None => None,
        },
        None => None,
    }
}

/// The type of the field of `this` with this name.
pub fn field_type(body: &Body<'_>, name: &Name) -> ExprType
    ensures { result ≡ types.typed body.now.schema.now.classes (option_map (λ f. f.type_name) (option_and_then (λ c. types.field_of body.now.schema.now.classes c name.now.text) body.now.this)) }
{
    match field_in_sight(body, name) {
        Some(field) => type_named(&body.schema.classes, &field.type_name),
        None => ExprType::Untold,
    }
}

/// The local or parameter with this name.
pub fn local_named<'a>(locals: &'a NamedTypes, name: &Name) -> Option<&'a NamedType>
    ensures { option_copied result ≡ rules.local_named locals.now name.now.text }
{
    locals
        .as_slice()
        .iter()
        .find(|local| local.name.is(&name.text))
}

/// The root with this name; in a method none can be named.
pub fn root_named<'a>(
    body: &Body<'a>,
    locals: &NamedTypes,
    name: &Name,
) -> Option<&'a RootDeclaration>
    ensures { option_copied result ≡ rules.root_named (sight body.now locals.now) name.now.text }
{
    match body.this {
        Some(_) => None,
        None => body
            .schema
            .roots
            .as_slice()
            .iter()
            .find(|root| root.name.text.is(&name.text)),
    }
}

/// The type of a local, parameter or root, where there is one of this name.
pub fn type_in_sight(body: &Body<'_>, locals: &NamedTypes, name: &Name) -> Option<ExprType>
    ensures { result ≡ rules.type_in_sight (sight body.now locals.now) name.now.text }
{
    match local_named(locals, name) {
        Some(local) => Some(local.kind),
        None => match root_named(body, locals, name) {
            Some(root) => Some(word_type(&body.schema.classes, &root.class)),
            None => None,
        },
    }
}

/// The method that is called on a value of this type.
pub fn method_called<'a>(
    classes: &'a Classes,
    receiver: ExprType,
    name: &Name,
) -> Option<&'a Method>
    ensures { option_copied result ≡ expression_rules.method_called classes.now receiver name.now }
{
    match receiver {
        ExprType::Class(class) => match classes.get(class as usize) {
            Some(found) => class_defs::method_of(&found.methods, &name.text),
            None => None,
        },
        ExprType::Int | ExprType::Text | ExprType::Null | ExprType::Untold => None,
    }
}
