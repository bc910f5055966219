ghost use Rattle.std.specs.Prelude.{◌≡◌, ◌≤◌, length};
ghost use Rattle.class_defs.specs.UpgradeRules as spec;
ghost use Rattle.class_defs.specs.declared.upgrades.Tf.{out-Tf};

use crate::paths::{field_at_path, goes_through_parts, is_field_of, is_int_path, is_text_field};
use class_defs::{Classes, Literal, Tf};

/// The line of an expression's first token.
#[cycle(first_line)]
#[tactic(auto, unfolding(class_defs::specs::UpgradeRules::first_line))]
pub fn first_line(tf: &Tf) -> u32
    ensures { result ≡ spec.first_line tf.now }
{
    match tf {
        Tf::Null { line } => *line,
        Tf::Literal { value: _, line } => *line,
        Tf::Path { names: _, line } => *line,
        Tf::Parens { inner: _, line } => *line,
        Tf::Negate { operand: _, line } => *line,
        Tf::Binary {
            operator: _,
            left,
            right: _,
            line: _,
        } => first_line(left.get()),
    }
}

/// Whether a literal is a number, and no text.
fn is_int_literal(literal: Literal) -> bool
    ensures { result ≡ spec.is_int_literal literal }
{
    match literal {
        Literal::Int(_) => true,
        Literal::Text(_) => false,
    }
}

/// Whether an expression at an object of a class is a text literal, or a text field.
pub fn gives_text(classes: &Classes, class: u16, tf: &Tf) -> bool
    requires { length classes.now ≤ 65536 }
    ensures { result ≡ spec.gives_text classes.now class (out-Tf tf.now) }
{
    match tf {
        Tf::Literal { value, line: _ } => !is_int_literal(*value),
        Tf::Path { names, line: _ } => is_text_field(classes, class, names.as_slice()),
        _ => false,
    }
}

/// Whether an expression at an object of a class is made of numbers and of paths that end in an int.
#[cycle(gives_int)]
#[tactic(auto, unfolding(class_defs::specs::UpgradeRules::gives_int))]
pub fn gives_int(classes: &Classes, class: u16, tf: &Tf) -> bool
    requires { length classes.now ≤ 65536 }
    ensures { result ≡ spec.gives_int classes.now class tf.now }
{
    match tf {
        Tf::Null { line: _ } => false,
        Tf::Literal { value, line: _ } => is_int_literal(*value),
        Tf::Path { names, line: _ } => is_int_path(classes, class, names.as_slice()),
        Tf::Parens { inner, line: _ } => gives_int(classes, class, inner.get()),
        Tf::Negate { operand, line: _ } => gives_int(classes, class, operand.get()),
        Tf::Binary {
            operator: _,
            left,
            right,
            line: _,
        } => gives_int(classes, class, left.get()) && gives_int(classes, class, right.get()),
    }
}

/// Whether all paths of an expression at an object of a class go through owned fields.
#[cycle(reads_parts)]
#[tactic(auto, unfolding(class_defs::specs::UpgradeRules::reads_parts))]
pub fn reads_parts(classes: &Classes, class: u16, tf: &Tf) -> bool
    requires { length classes.now ≤ 65536 }
    ensures { result ≡ spec.reads_parts classes.now class tf.now }
{
    match tf {
        Tf::Null { line: _ } => true,
        Tf::Literal { value: _, line: _ } => true,
        Tf::Path { names, line: _ } => goes_through_parts(classes, class, names.as_slice()),
        Tf::Parens { inner, line: _ } => reads_parts(classes, class, inner.get()),
        Tf::Negate { operand, line: _ } => reads_parts(classes, class, operand.get()),
        Tf::Binary {
            operator: _,
            left,
            right,
            line: _,
        } => reads_parts(classes, class, left.get()) && reads_parts(classes, class, right.get()),
    }
}

/// Whether an expression at an object of a class is `null`, or a field of the other class.
pub fn gives_reference(classes: &Classes, class: u16, other: u16, tf: &Tf) -> bool
    requires { length classes.now ≤ 65536 }
    ensures { result ≡ spec.gives_reference classes.now class other (out-Tf tf.now) }
{
    match tf {
        Tf::Null { line: _ } => true,
        Tf::Path { names, line: _ } => is_field_of(classes, class, other, names.as_slice()),
        _ => false,
    }
}

/// The place of the field that an expression is.
pub fn field_read(classes: &Classes, class: u16, tf: &Tf) -> Option<usize>
    ensures { result ≡ spec.field_read classes.now class (out-Tf tf.now) }
{
    match tf {
        Tf::Path { names, line: _ } => field_at_path(classes, class, names.as_slice()),
        _ => None,
    }
}
