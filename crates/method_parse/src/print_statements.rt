//! Statements, blocks and classes printed.

ghost use Rattle.std.specs.Prelude.{◌≡◌, ◌∷◌, ◌++◌, map, IfOk, OnOk};
ghost use Rattle.class_defs.specs.Words.{in_turn, with_commas};
ghost use Rattle.class_defs.specs.Spelling.{ended, condition_words, braces, stmt_words, kind_text};
ghost use Rattle.class_defs.specs.Spelling.{field_words, parameter_words, method_words};
ghost use Rattle.class_defs.specs.Printed.{spaced_words, printed_block, printed_class};

use crate::printing::{print_expr, print_name, print_type, print_word};
use class_defs::{Block, Class, ClassKind, Expr, Field, Method, Parameter, Parameters, Stmt};
use std::alloc::Global;
use thor_value::{NoMemory, Text};

/// Prints an expression and the `;` behind it.
#[tactic(auto, using(std::proofs::Common::append_assoc, crate::proofs::Spaced::spaced_both))]
fn print_ended(out: &mut Text, value: &Expr) -> Result<(), NoMemory>
    ensures { OnOk result (out.new ≡ out.old ++ spaced_words (ended value.now)) }
{
    print_expr(out, value)?;
    print_word(out, b";")
}

/// Prints a condition in its parentheses.
#[tactic(auto, using(std::proofs::Common::append_assoc, crate::proofs::Spaced::spaced_both))]
fn print_condition(out: &mut Text, condition: &Expr) -> Result<(), NoMemory>
    ensures { OnOk result (out.new ≡ out.old ++ spaced_words (condition_words condition.now)) }
{
    print_word(out, b"(")?;
    print_expr(out, condition)?;
    print_word(out, b")")
}

/// Prints statements, one behind the other.
#[cycle(print_statement)]
#[tactic(auto, using(std::proofs::Common::append_assoc))]
fn print_stmts(out: &mut Text, block: &Block) -> Result<(), NoMemory>
    ensures { OnOk result
        (out.new ≡ out.old ++ spaced_words (in_turn (map stmt_words block.now))) }
{
    for stmt in block.as_slice() {
        print_stmt(out, stmt)?;
    }
    Ok(())
}

/// Prints a block behind a space.
#[cycle(print_statement)]
#[tactic(auto, using(std::proofs::Common::append_assoc, crate::proofs::Spaced::spaced_both))]
fn print_braces(out: &mut Text, block: &Block) -> Result<(), NoMemory>
    ensures { OnOk result
        (out.new ≡ out.old ++ spaced_words (braces (map stmt_words block.now))) }
{
    print_word(out, b"{")?;
    print_stmts(out, block)?;
    print_word(out, b"}")
}

/// Prints the words of a statement, each behind a space.
#[cycle(print_statement)]
#[tactic(auto, using(std::proofs::Common::append_assoc, crate::proofs::Spaced::spaced_both))]
fn print_stmt(out: &mut Text, stmt: &Stmt) -> Result<(), NoMemory>
    ensures { OnOk result (out.new ≡ out.old ++ spaced_words (stmt_words stmt.now)) }
{
    match stmt {
        Stmt::Var {
            type_name,
            name,
            value,
            ..
        } => {
            print_word(out, b"var")?;
            print_type(out, type_name)?;
            print_name(out, name)?;
            print_word(out, b"=")?;
            print_ended(out, value)
        }
        Stmt::Assign { name, value, .. } => {
            print_name(out, name)?;
            print_word(out, b"=")?;
            print_ended(out, value)
        }
        Stmt::FieldAssign { field, value, .. } => {
            print_word(out, b"this")?;
            print_word(out, b".")?;
            print_name(out, field)?;
            print_word(out, b"=")?;
            print_ended(out, value)
        }
        Stmt::Return { value } => {
            print_word(out, b"return")?;
            print_ended(out, value)
        }
        Stmt::If { condition, then } => {
            print_word(out, b"if")?;
            print_condition(out, condition)?;
            print_braces(out, then)
        }
        Stmt::IfElse {
            condition,
            then,
            otherwise,
        } => {
            print_word(out, b"if")?;
            print_condition(out, condition)?;
            print_braces(out, then)?;
            print_word(out, b"else")?;
            print_braces(out, otherwise)
        }
        Stmt::While { condition, body } => {
            print_word(out, b"while")?;
            print_condition(out, condition)?;
            print_braces(out, body)
        }
        Stmt::Print { value } => {
            print_word(out, b"print")?;
            print_ended(out, value)
        }
        Stmt::Evaluate { value } => print_ended(out, value),
    }
}

/// Prints a field.
#[tactic(auto, using(std::proofs::Common::append_assoc))]
fn print_field(out: &mut Text, field: &Field) -> Result<(), NoMemory>
    ensures { OnOk result (out.new ≡ out.old ++ spaced_words (field_words field.now)) }
{
    print_type(out, &field.type_name)?;
    print_name(out, &field.name)?;
    print_word(out, b";")
}

/// Prints fields, one behind the other.
#[tactic(auto, using(std::proofs::Common::append_assoc))]
fn print_fields(out: &mut Text, fields: &[Field]) -> Result<(), NoMemory>
    ensures { OnOk result
        (out.new ≡ out.old ++ spaced_words (in_turn (map field_words fields.now))) }
{
    for field in fields {
        print_field(out, field)?;
    }
    Ok(())
}

/// Prints a parameter.
#[tactic(auto, using(std::proofs::Common::append_assoc))]
fn print_parameter(out: &mut Text, parameter: &Parameter) -> Result<(), NoMemory>
    ensures { OnOk result (out.new ≡ out.old ++ spaced_words (parameter_words parameter.now)) }
{
    print_type(out, &parameter.type_name)?;
    print_name(out, &parameter.name)
}

/// Prints parameters, with a comma between two.
#[tactic(auto, using(std::proofs::Common::append_assoc))]
fn print_parameters(out: &mut Text, parameters: &Parameters) -> Result<(), NoMemory>
    ensures { OnOk result
        (out.new ≡ out.old ++ spaced_words (with_commas (map parameter_words parameters.now))) }
{
    let Some((first, more)) = parameters.as_slice().split_first() else {
        return Ok(());
    };
    print_parameter(out, first)?;
    for parameter in more {
        print_word(out, b",")?;
        print_parameter(out, parameter)?;
    }
    Ok(())
}

/// Prints a method.
#[tactic(auto, using(std::proofs::Common::append_assoc, crate::proofs::Spaced::spaced_both))]
fn print_method(out: &mut Text, method: &Method) -> Result<(), NoMemory>
    ensures { OnOk result (out.new ≡ out.old ++ spaced_words (method_words method.now)) }
{
    print_word(out, b"method")?;
    print_type(out, &method.result)?;
    print_name(out, &method.name)?;
    print_word(out, b"(")?;
    print_parameters(out, &method.parameters)?;
    print_word(out, b")")?;
    print_braces(out, &method.body)
}

/// Prints methods, one behind the other.
#[tactic(auto, using(std::proofs::Common::append_assoc))]
pub fn print_methods(out: &mut Text, methods: &[Method]) -> Result<(), NoMemory>
    ensures { OnOk result
        (out.new ≡ out.old ++ spaced_words (in_turn (map method_words methods.now))) }
{
    for method in methods {
        print_method(out, method)?;
    }
    Ok(())
}

/// The word of a class's kind.
fn kind_word(kind: ClassKind) -> &'static [u8]
    ensures { result.now ≡ kind_text kind }
{
    match kind {
        ClassKind::Free => b"free",
        ClassKind::Part => b"part",
    }
}

/// The text of a block: its words with one space between two, and each number in decimal without leading
/// zeros.
///
/// Want of memory is the only error.
#[tactic(auto, using(std::proofs::Common::append_assoc, crate::proofs::Spaced::spaced_both))]
pub fn print_block(alloc: Global, block: &Block) -> Result<Text, NoMemory>
    ensures { IfOk result (λ text. text ≡ printed_block block.now) }
{
    let mut out = Text::from_slice(alloc, b"{")?;
    print_stmts(&mut out, block)?;
    print_word(&mut out, b"}")?;
    Ok(out)
}

/// The text of a class: its words with one space between two, and each number in decimal without leading
/// zeros.
///
/// Want of memory is the only error.
#[tactic(auto, using(std::proofs::Common::append_assoc, crate::proofs::Spaced::spaced_both))]
pub fn print_class(alloc: Global, class: &Class) -> Result<Text, NoMemory>
    ensures { IfOk result (λ text. text ≡ printed_class class.now) }
{
    let mut out = Text::from_slice(alloc, kind_word(class.kind))?;
    print_word(&mut out, b"class")?;
    print_name(&mut out, &class.name)?;
    print_word(&mut out, b"{")?;
    print_fields(&mut out, class.fields.as_slice())?;
    print_methods(&mut out, class.methods.as_slice())?;
    print_word(&mut out, b"}")?;
    Ok(out)
}
