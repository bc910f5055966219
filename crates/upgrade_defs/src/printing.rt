//! Upgrades printed: their words, with one space between two.

ghost use Rattle.std.specs.Prelude.{◌≡◌, ◌∷◌, ◌++◌, [], map, codes, IfOk, OnOk};
ghost use Rattle.class_defs.specs.Printed.{spaced_words};
ghost use Rattle.class_defs.specs.Words.{Fixed, in_turn};
ghost use Rattle.upgrade_defs.specs.Printed.{printed_upgrade};
ghost use Rattle.upgrade_defs.specs.Spelling.{class_upgrade_words, dot_name, field_upgrade_words, tf_words};

use class_defs::{ClassUpgrade, FieldUpgrade, Name, Tf, Upgrade};
use method_parse::{print_literal, print_methods, print_name, print_type, print_word, symbol};
use std::alloc::Global;
use thor_value::{NoMemory, Shared, Text};

/// Prints the names of a path, each behind a dot.
#[tactic(auto, using(std::proofs::Common::append_assoc))]
fn print_names(out: &mut Text, names: &[Name]) -> Result<(), NoMemory>
    ensures { OnOk result (out.new ≡ out.old ++ spaced_words (in_turn (map dot_name names.now))) }
{
    for name in names {
        print_word(out, b".")?;
        print_name(out, name)?;
    }
    Ok(())
}

/// Prints what stands behind an opening parenthesis, and the closing one.
#[cycle(print_tf)]
#[tactic(auto, using(std::proofs::Common::append_assoc, method_parse::proofs::Spaced::spaced_both))]
fn print_inner(out: &mut Text, inner: &Shared<Tf>) -> Result<(), NoMemory>
    ensures { OnOk result (out.new ≡ out.old ++ spaced_words (tf_words inner.now ++ Fixed (codes ")") ∷ [])) }
{
    print_tf(out, inner.get())?;
    print_word(out, b")")
}

/// Prints the expression of a new field.
#[cycle(print_tf)]
#[tactic(auto, using(std::proofs::Common::append_assoc, method_parse::proofs::Spaced::spaced_both))]
fn print_tf(out: &mut Text, value: &Tf) -> Result<(), NoMemory>
    ensures { OnOk result (out.new ≡ out.old ++ spaced_words (tf_words value.now)) }
{
    match value {
        Tf::Null { .. } => print_word(out, b"null"),
        Tf::Literal { value, .. } => print_literal(out, *value),
        Tf::Path { names, .. } => {
            print_word(out, b"old")?;
            print_names(out, names.as_slice())
        }
        Tf::Parens { inner, .. } => {
            print_word(out, b"(")?;
            print_inner(out, inner)
        }
        Tf::Negate { operand, .. } => {
            print_word(out, b"-")?;
            print_tf(out, operand.get())
        }
        Tf::Binary {
            operator,
            left,
            right,
            ..
        } => {
            print_tf(out, left.get())?;
            print_word(out, symbol(*operator))?;
            print_tf(out, right.get())
        }
    }
}

/// Prints a new field.
#[tactic(auto, using(std::proofs::Common::append_assoc, method_parse::proofs::Spaced::spaced_both))]
fn print_field(out: &mut Text, field: &FieldUpgrade) -> Result<(), NoMemory>
    ensures { OnOk result (out.new ≡ out.old ++ spaced_words (field_upgrade_words field.now)) }
{
    print_type(out, &field.type_name)?;
    print_name(out, &field.name)?;
    print_word(out, b"=")?;
    print_tf(out, &field.value)?;
    print_word(out, b";")
}

/// Prints new fields, one behind the other.
#[tactic(auto, using(std::proofs::Common::append_assoc))]
fn print_fields(out: &mut Text, fields: &[FieldUpgrade]) -> Result<(), NoMemory>
    ensures { OnOk result (out.new ≡ out.old ++ spaced_words (in_turn (map field_upgrade_words fields.now))) }
{
    for field in fields {
        print_field(out, field)?;
    }
    Ok(())
}

/// Prints a class of an upgrade.
#[tactic(auto, using(std::proofs::Common::append_assoc, method_parse::proofs::Spaced::spaced_both))]
fn print_class(out: &mut Text, class: &ClassUpgrade) -> Result<(), NoMemory>
    ensures { OnOk result (out.new ≡ out.old ++ spaced_words (class_upgrade_words class.now)) }
{
    print_word(out, b"class")?;
    print_name(out, &class.name)?;
    print_word(out, b"{")?;
    print_fields(out, class.fields.as_slice())?;
    print_methods(out, class.methods.as_slice())?;
    print_word(out, b"}")
}

/// Prints classes, one behind the other.
#[tactic(auto, using(std::proofs::Common::append_assoc))]
fn print_classes(out: &mut Text, classes: &[ClassUpgrade]) -> Result<(), NoMemory>
    ensures { OnOk result (out.new ≡ out.old ++ spaced_words (in_turn (map class_upgrade_words classes.now))) }
{
    for class in classes {
        print_class(out, class)?;
    }
    Ok(())
}

/// The text of an upgrade: its words from `upgrade` on, with one space between two, and each number in decimal
/// without leading zeros. A store keeps this text.
///
/// Want of memory is the only error.
#[tactic(auto, using(std::proofs::Common::append_assoc, method_parse::proofs::Spaced::spaced_both))]
pub fn print_upgrade(alloc: Global, upgrade: &Upgrade) -> Result<Text, NoMemory>
    ensures { IfOk result (λ text. text ≡ printed_upgrade upgrade.now) }
{
    let mut out = Text::from_slice(alloc, b"upgrade")?;
    print_word(&mut out, b"{")?;
    print_classes(&mut out, upgrade.classes.as_slice())?;
    print_word(&mut out, b"}")?;
    Ok(out)
}
