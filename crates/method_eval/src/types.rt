ghost use Rattle.std.specs.Prelude.{◌≡◌, option_map};
ghost use Rattle.std.specs.Option.{option_copied};
ghost use Rattle.class_defs.specs.Objects.{local_named, root_named, type_in_sight, scope_at};
ghost use Rattle.class_defs.specs.Types as spec;
ghost use Rattle.class_defs.specs.Types.{type_named, field_type, name_type, result_type, type_of};

use crate::world::Program;
use class_defs::{
    Expr, ExprType, Field, Local, Machine, Method, RootDeclaration, TypeName, class_type,
    literal_type, word_type,
};
use thor_value::Word;

/// The type that a type's word names.
pub fn type_named(program: &Program<'_>, type_name: &TypeName) -> ExprType
    ensures { result ≡ type_named program.now.schema.now.classes type_name.now }
{
    class_defs::type_named(&program.schema.classes, type_name)
}

/// The local or parameter with this name.
pub fn local_named<'a>(machine: &'a Machine, name: &Word) -> Option<&'a Local>
    ensures { option_copied result ≡ local_named machine.now name.now }
{
    machine
        .locals
        .as_slice()
        .iter()
        .find(|local| local.name.is(name))
}

/// The root with this name; in a method none can be named.
pub fn root_named<'a>(
    program: &Program<'a>,
    machine: &Machine,
    name: &Word,
) -> Option<&'a RootDeclaration>
    ensures { option_copied result ≡ root_named program.now.schema.now machine.now name.now }
{
    match &machine.this {
        Some(_) => None,
        None => program
            .schema
            .roots
            .as_slice()
            .iter()
            .find(|root| root.name.text.is(name)),
    }
}

/// The method with this name of the class with this number.
pub fn method_of<'a>(program: &Program<'a>, class: u16, name: &Word) -> Option<&'a Method>
    ensures { option_copied result ≡ spec.method_of program.now.schema.now.classes class name.now }
{
    match program.schema.classes.get(class as usize) {
        Some(found) => class_defs::method_of(&found.methods, name),
        None => None,
    }
}

/// The field with this name of the class with this number.
pub fn field_of<'a>(program: &Program<'a>, class: u16, name: &Word) -> Option<&'a Field>
    ensures { option_copied result ≡ spec.field_of program.now.schema.now.classes class name.now }
{
    match program.schema.classes.get(class as usize) {
        Some(found) => class_defs::field_of(&found.fields, name),
        None => None,
    }
}

/// The type of the field of `this` with this name.
#[tactic(auto, unfolding(class_defs::specs::Objects::scope_at))]
pub fn field_type(program: &Program<'_>, machine: &Machine, name: &Word) -> ExprType
    ensures { result ≡ field_type (scope_at program.now.schema.now machine.now) name.now }
{
    match &machine.this {
        Some(this) => match field_of(program, this.class, name) {
            Some(field) => type_named(program, &field.type_name),
            None => ExprType::Untold,
        },
        None => ExprType::Untold,
    }
}

/// The type of a local, parameter or root.
#[tactic(auto, unfolding(class_defs::specs::Objects::scope_at))]
pub fn name_type(program: &Program<'_>, machine: &Machine, name: &Word) -> ExprType
    ensures { result ≡ name_type (scope_at program.now.schema.now machine.now) name.now }
{
    match local_named(machine, name) {
        Some(local) => local.kind,
        None => match root_named(program, machine, name) {
            Some(root) => word_type(&program.schema.classes, &root.class),
            None => ExprType::Untold,
        },
    }
}

/// The type of what a method answers.
pub fn result_type(program: &Program<'_>, receiver: ExprType, name: &Word) -> ExprType
    ensures { result ≡ result_type program.now.schema.now.classes receiver name.now }
{
    match receiver {
        ExprType::Class(class) => match method_of(program, class, name) {
            Some(method) => type_named(program, &method.result),
            None => ExprType::Untold,
        },
        ExprType::Int | ExprType::Text | ExprType::Null | ExprType::Untold => ExprType::Untold,
    }
}

/// The type of an expression.
#[tactic(auto, unfolding(class_defs::specs::Types::type_of, class_defs::specs::Objects::scope_at))]
pub fn type_of(program: &Program<'_>, machine: &Machine, expr: &Expr) -> ExprType
    ensures { result ≡ type_of (scope_at program.now.schema.now machine.now) expr.now }
{
    match expr {
        Expr::Literal { value, line: _ } => literal_type(*value),
        Expr::Null { line: _ } => ExprType::Null,
        Expr::This { line: _ } => match &machine.this {
            Some(this) => ExprType::Class(this.class),
            None => ExprType::Untold,
        },
        Expr::Field { name } => field_type(program, machine, &name.text),
        Expr::Variable { name } => name_type(program, machine, &name.text),
        Expr::New { class, at: _ } => class_type(&program.schema.classes, class),
        Expr::Parens { inner, line: _ } => type_of(program, machine, inner.get()),
        Expr::Negate {
            operand: _,
            line: _,
        } => ExprType::Int,
        Expr::Binary {
            operator: _,
            left: _,
            right: _,
            line: _,
        } => ExprType::Int,
        Expr::Call {
            receiver,
            method,
            arguments: _,
        } => {
            let receiver = type_of(program, machine, receiver.get());
            result_type(program, receiver, &method.text)
        }
    }
}
