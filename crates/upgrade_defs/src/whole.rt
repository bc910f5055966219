//! All tokens as one upgrade, and the line where they are none.

ghost use Rattle.std.specs.Prelude.{◌≡◌};
ghost use Rattle.method_parse.specs.Reader.{Gives};
ghost use Rattle.method_parse.specs.Texts.{Answers};
ghost use Rattle.upgrade_defs.specs.Upgrades.{upgrade_of};

use crate::upgrades::upgrade;
use class_defs::Upgrade;
use method_parse::{ParseError, error_of};
use script_text::{SyntaxError, Token};
use std::alloc::Global;

#[tactic(auto, unfolding(crate::specs::Upgrades::upgrade_of))]
fn whole_upgrade(alloc: Global, tokens: &[Token]) -> Result<Upgrade, ParseError>
    ensures { Gives (λ x. x) result (upgrade_of tokens.now) }
{
    let (upgrade, rest) = upgrade(alloc, tokens)?;
    if rest.is_empty() {
        Ok(upgrade)
    } else {
        Err(ParseError::Stuck(rest.len()))
    }
}

/// The upgrade that all tokens are, or the line of the fault.
pub fn answer(alloc: Global, tokens: &[Token]) -> Result<Upgrade, SyntaxError>
    ensures { Answers tokens.now result (upgrade_of tokens.now) }
{
    match whole_upgrade(alloc, tokens) {
        Ok(upgrade) => Ok(upgrade),
        Err(stopped) => Err(error_of(tokens, stopped)),
    }
}
