//! Upgrades: their classes, with new fields and methods.

ghost use Rattle.std.specs.Prelude.{◌≡◌};
ghost use Rattle.method_parse.specs.Reader.{Gives};
ghost use Rattle.upgrade_defs.specs.Upgrades.{all_classes, class, field, fields, more_classes, more_fields, upgrade};

use crate::expressions::value;
use class_defs::{ClassUpgrade, ClassUpgrades, FieldUpgrade, FieldUpgrades, Upgrade};
use method_parse::{ParseError, methods, name, next_begins_type, next_is, type_word, word};
use script_text::Token;
use std::alloc::Global;
use thor_value::both;

/// How many new fields a class may have.
const MAX_FIELDS: usize = 32;

#[tactic(auto, unfolding(crate::specs::Upgrades::field))]
fn field(alloc: Global, tokens: &[Token]) -> Result<(FieldUpgrade, &[Token]), ParseError>
    ensures { Gives (λ x. (x.0, x.1.now)) result (field tokens.now) }
{
    let (type_name, rest) = match type_word(tokens) {
        Ok(read) => read,
        Err(error) => return Err(error),
    };
    let (name, rest) = match name(rest) {
        Ok(read) => read,
        Err(error) => return Err(error),
    };
    let (_, rest) = word(rest, b"=")?;
    let (value, rest) = value(alloc, rest)?;
    let (value, (_, rest)) = both(value, word(rest, b";"))?;
    let field = FieldUpgrade {
        type_name,
        name,
        value,
    };
    Ok((field, rest))
}

/// One more field.
#[tactic(auto, unfolding(crate::specs::Upgrades::more_fields))]
fn more_fields(
    alloc: Global,
    fields: FieldUpgrades,
    tokens: &[Token],
) -> Result<(FieldUpgrades, &[Token]), ParseError>
    ensures { Gives (λ x. (x.0, x.1.now)) result (more_fields fields tokens.now) }
{
    let mut fields = fields;
    let (one, rest) = field(alloc, tokens)?;
    fields.push(one)?;
    Ok((fields, rest))
}

fn fields(alloc: Global, tokens: &[Token]) -> Result<(FieldUpgrades, &[Token]), ParseError>
    ensures { Gives (λ x. (x.0, x.1.now)) result (fields tokens.now) }
{
    let mut read = FieldUpgrades::new(alloc);
    let mut rest = tokens;
    for _turn in 0..MAX_FIELDS {
        if !next_begins_type(rest) {
            return Ok((read, rest));
        }
        let (more, after) = more_fields(alloc, read, rest)?;
        read = more;
        rest = after;
    }
    Ok((read, rest))
}

#[tactic(auto, unfolding(crate::specs::Upgrades::class))]
fn class(alloc: Global, tokens: &[Token]) -> Result<(ClassUpgrade, &[Token]), ParseError>
    ensures { Gives (λ x. (x.0, x.1.now)) result (class tokens.now) }
{
    let (_, rest) = word(tokens, b"class")?;
    let (name, rest) = match name(rest) {
        Ok(read) => read,
        Err(error) => return Err(error),
    };
    let (_, rest) = word(rest, b"{")?;
    let (fields, rest) = fields(alloc, rest)?;
    let (methods, rest) = methods(alloc, rest)?;
    let (_, rest) = word(rest, b"}")?;
    let class = ClassUpgrade {
        name,
        fields,
        methods,
    };
    Ok((class, rest))
}

/// One more class.
#[tactic(auto, unfolding(crate::specs::Upgrades::more_classes))]
fn more_classes(
    alloc: Global,
    classes: ClassUpgrades,
    tokens: &[Token],
) -> Result<(ClassUpgrades, &[Token]), ParseError>
    ensures { Gives (λ x. (x.0, x.1.now)) result (more_classes classes tokens.now) }
{
    let mut classes = classes;
    let (one, rest) = class(alloc, tokens)?;
    classes.push(one)?;
    Ok((classes, rest))
}

/// The classes behind the first.
fn all_classes(
    alloc: Global,
    first: ClassUpgrades,
    tokens: &[Token],
) -> Result<(ClassUpgrades, &[Token]), ParseError>
    ensures { Gives (λ x. (x.0, x.1.now)) result (all_classes first tokens.now) }
{
    let mut read = first;
    let mut rest = tokens;
    // Each class takes a token, so there are no more of them than tokens.
    for _turn in 0..tokens.len() {
        if !next_is(rest, b"class") {
            return Ok((read, rest));
        }
        let (more, after) = more_classes(alloc, read, rest)?;
        read = more;
        rest = after;
    }
    Ok((read, rest))
}

/// The upgrade at the front of the tokens.
#[tactic(auto, unfolding(crate::specs::Upgrades::upgrade))]
pub fn upgrade(alloc: Global, tokens: &[Token]) -> Result<(Upgrade, &[Token]), ParseError>
    ensures { Gives (λ x. (x.0, x.1.now)) result (upgrade tokens.now) }
{
    let (line, rest) = word(tokens, b"upgrade")?;
    let (_, rest) = word(rest, b"{")?;
    let (first, rest) = more_classes(alloc, ClassUpgrades::new(alloc), rest)?;
    let (classes, rest) = all_classes(alloc, first, rest)?;
    let (classes, (_, rest)) = both(classes, word(rest, b"}"))?;
    Ok((Upgrade { line, classes }, rest))
}
