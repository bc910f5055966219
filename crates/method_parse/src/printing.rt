//! Trees printed: their words, with one space between two.

ghost use Rattle.std.specs.Prelude.{◌≡◌, ℕ, [], ◌∷◌, ◌++◌, map, OnOk};
ghost use Rattle.class_defs.specs.Words.{name_word, symbol_of, with_commas};
ghost use Rattle.class_defs.specs.Spelling.{type_word, at_words, condition_words, expr_words, literal_word};
ghost use Rattle.std.specs.Fmt.{signed_decimal};
ghost use Rattle.class_defs.specs.Printed.{spaced_word, spaced_words};

use class_defs::{At, Expr, Exprs, Literal, Name, Operator, TypeName};
use thor_value::{NoMemory, Shared, Text, Word};

/// Prints a keyword or symbol behind a space.
#[tactic(auto, using(std::proofs::Common::append_assoc))]
pub fn print_word(out: &mut Text, word: &[u8]) -> Result<(), NoMemory>
    ensures { OnOk result (out.new ≡ out.old ++ 32 ∷ word.now) }
{
    out.push(b' ')?;
    out.extend_from_slice(word)
}

/// Prints a number behind a space.
#[tactic(auto, using(std::proofs::Common::append_assoc))]
fn print_value(out: &mut Text, value: i64) -> Result<(), NoMemory>
    ensures { OnOk result (out.new ≡ out.old ++ 32 ∷ signed_decimal value) }
{
    let digits = value.to_string(out.allocator())?;
    print_word(out, digits.as_bytes())
}

/// Prints a text between quotation marks behind a space.
#[tactic(auto, using(std::proofs::Common::append_assoc))]
fn print_quoted(out: &mut Text, text: Word) -> Result<(), NoMemory>
    ensures { OnOk result (out.new ≡ out.old ++ 32 ∷ 34 ∷ (text ++ 34 ∷ [])) }
{
    print_word(out, b"\"")?;
    out.extend_from_slice(text.bytes())?;
    out.push(b'"')
}

/// Prints a literal behind a space.
#[tactic(auto, using(std::proofs::Common::append_assoc))]
pub fn print_literal(out: &mut Text, literal: Literal) -> Result<(), NoMemory>
    ensures { (line : ℕ) → OnOk result (out.new ≡ out.old ++ spaced_word (literal_word literal line)) }
{
    match literal {
        Literal::Int(value) => print_value(out, value),
        Literal::Text(text) => print_quoted(out, text),
    }
}

/// Prints the word `at` and a number, or nothing.
#[tactic(auto, using(std::proofs::Common::append_assoc))]
pub fn print_at(out: &mut Text, at: Option<At>) -> Result<(), NoMemory>
    ensures { OnOk result (out.new ≡ out.old ++ spaced_words (at_words at)) }
{
    if let Some(at) = at {
        print_word(out, b"at")?;
        let digits = at.number.to_string(out.allocator())?;
        print_word(out, digits.as_bytes())?;
    }
    Ok(())
}

/// Prints a name behind a space.
#[tactic(auto, using(std::proofs::Common::append_assoc))]
pub fn print_name(out: &mut Text, name: &Name) -> Result<(), NoMemory>
    ensures { OnOk result (out.new ≡ out.old ++ spaced_word (name_word name.now)) }
{
    print_word(out, name.text.bytes())
}

/// Prints a type behind a space.
pub fn print_type(out: &mut Text, type_name: &TypeName) -> Result<(), NoMemory>
    ensures { OnOk result (out.new ≡ out.old ++ spaced_word (type_word type_name.now)) }
{
    match type_name {
        TypeName::Int { .. } => print_word(out, b"int"),
        TypeName::Class { name } => print_name(out, name),
    }
}

/// The symbol of an operator.
pub fn symbol(operator: Operator) -> &'static [u8]
    ensures { result.now ≡ symbol_of operator }
{
    match operator {
        Operator::Add => b"+",
        Operator::Subtract => b"-",
        Operator::Multiply => b"*",
        Operator::Equal => b"==",
        Operator::Unequal => b"!=",
        Operator::Less => b"<",
    }
}

/// Prints the words of arguments, with a comma between two.
#[cycle(print_expression)]
#[tactic(auto, using(std::proofs::Common::append_assoc, crate::proofs::Spaced::spaced_both))]
fn print_arguments(out: &mut Text, arguments: &Exprs) -> Result<(), NoMemory>
    ensures { OnOk result
        (out.new ≡ out.old ++ spaced_words (with_commas (map expr_words arguments.now))) }
{
    let Some((first, more)) = arguments.as_slice().split_first() else {
        return Ok(());
    };
    print_expr(out, first)?;
    for argument in more {
        print_word(out, b",")?;
        print_expr(out, argument)?;
    }
    Ok(())
}

/// Prints an expression in its parentheses.
#[cycle(print_expression)]
#[tactic(auto, using(std::proofs::Common::append_assoc, crate::proofs::Spaced::spaced_both))]
fn print_parens(out: &mut Text, inner: &Shared<Expr>) -> Result<(), NoMemory>
    ensures { OnOk result (out.new ≡ out.old ++ spaced_words (condition_words inner.now)) }
{
    print_word(out, b"(")?;
    print_expr(out, inner.get())?;
    print_word(out, b")")
}

/// Prints the words of an expression, each behind a space.
#[cycle(print_expression)]
#[tactic(auto, using(std::proofs::Common::append_assoc, crate::proofs::Spaced::spaced_both))]
pub fn print_expr(out: &mut Text, expr: &Expr) -> Result<(), NoMemory>
    ensures { OnOk result (out.new ≡ out.old ++ spaced_words (expr_words expr.now)) }
{
    match expr {
        Expr::Literal { value, .. } => print_literal(out, *value),
        Expr::Null { .. } => print_word(out, b"null"),
        Expr::This { .. } => print_word(out, b"this"),
        Expr::Field { name } => {
            print_word(out, b"this")?;
            print_word(out, b".")?;
            print_name(out, name)
        }
        Expr::Variable { name } => print_name(out, name),
        Expr::New { class, at } => {
            print_word(out, b"new")?;
            print_name(out, class)?;
            print_word(out, b"(")?;
            print_word(out, b")")?;
            print_at(out, *at)
        }
        Expr::Parens { inner, .. } => print_parens(out, inner),
        Expr::Negate { operand, .. } => {
            print_word(out, b"-")?;
            print_expr(out, operand.get())
        }
        Expr::Binary {
            operator,
            left,
            right,
            ..
        } => {
            print_expr(out, left.get())?;
            print_word(out, symbol(*operator))?;
            print_expr(out, right.get())
        }
        Expr::Call {
            receiver,
            method,
            arguments,
        } => {
            print_expr(out, receiver.get())?;
            print_word(out, b".")?;
            print_name(out, method)?;
            print_word(out, b"(")?;
            print_arguments(out, arguments)?;
            print_word(out, b")")
        }
    }
}
