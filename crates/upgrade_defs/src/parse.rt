//! Upgrades read from tokens.

ghost use Rattle.std.specs.Prelude.{IfErr, IfOk, Ok};
ghost use Rattle.class_defs.specs.declared.upgrades.Upgrade.{Upgrade};
ghost use Rattle.script_text.specs.Reading.{Gives};
ghost use Rattle.method_parse.specs.Texts.{IsFaultOf};
ghost use Rattle.upgrade_defs.specs.Texts.{SpellsUpgrade};

use crate::whole::answer;
use class_defs::Upgrade;
use script_text::{SyntaxError, Tokens};
use std::alloc::Global;

/// An item's upgrade: the tokens from the word `upgrade` up to its last `}`.
///
/// `Fault` is at the line of the first token that can't go on; at the end of the tokens, at that of the
/// last one, or 1.
#[tactic(auto, using(crate::proofs::Ends::upgrade_found, crate::proofs::Only::upgrade_only, crate::proofs::Faults::upgrade_fault))]
pub fn parse_upgrade(alloc: Global, tokens: &Tokens) -> Result<Upgrade, SyntaxError>
    ensures found { IfOk result (SpellsUpgrade tokens.now) }
    ensures only { (upgrade : Upgrade) → SpellsUpgrade tokens.now upgrade → Gives result (Ok upgrade) }
    ensures fault { IfErr result (IsFaultOf SpellsUpgrade tokens.now) }
{
    answer(alloc, tokens.as_slice())
}
