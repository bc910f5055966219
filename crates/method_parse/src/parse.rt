//! Blocks and setups read from tokens.

ghost use Rattle.std.specs.Prelude.{◌≡◌, List, IfOk, IfErr, Ok};
ghost use Rattle.class_defs.specs.declared.declarations.Declarations.{Declarations};
ghost use Rattle.class_defs.specs.declared.statements.Stmt.{Stmt};
ghost use Rattle.script_text.specs.declared.token.Token.{Token};
ghost use Rattle.script_text.specs.Reading.{Gives};
ghost use Rattle.method_parse.specs.Texts.{SpellsBlock, SpellsSetup, IsFaultOf};

use crate::whole::{block, declarations};
use class_defs::{Block, Declarations};
use script_text::{SyntaxError, Tokens};
use std::alloc::Global;

/// An item's block: the tokens from its `{` up to its `}`.
///
/// `Fault` is at the line of the first token that can't go on; at the end of the tokens, at that of the
/// last one, or 1.
#[tactic(auto, using(crate::proofs::Ends::block_found, crate::proofs::Only::block_only, crate::proofs::Faults::block_fault))]
pub fn parse_block(alloc: Global, tokens: &Tokens) -> Result<Block, SyntaxError>
    ensures found { IfOk result (SpellsBlock tokens.now) }
    ensures only { (block : List Stmt) → SpellsBlock tokens.now block → Gives result (Ok block) }
    ensures fault { IfErr result (IsFaultOf SpellsBlock tokens.now) }
{
    block(alloc, tokens.as_slice())
}

/// What the section `setup` declares: the tokens behind the word `setup`, classes and then roots.
///
/// `Fault` is at the line of the first token that can't go on; at the end of the tokens, at that of the
/// last one, or 1.
#[tactic(auto, using(crate::proofs::Ends::setup_found, crate::proofs::Only::setup_only, crate::proofs::Faults::setup_fault))]
pub fn parse_setup(alloc: Global, tokens: &Tokens) -> Result<Declarations, SyntaxError>
    ensures found { IfOk result (SpellsSetup tokens.now) }
    ensures only { (setup : Declarations) → SpellsSetup tokens.now setup → Gives result (Ok setup) }
    ensures fault { IfErr result (IsFaultOf SpellsSetup tokens.now) }
{
    declarations(alloc, tokens.as_slice())
}

/// No tokens spell two trees.
#[tactic(auto, using(crate::proofs::Only::one_block, crate::proofs::Only::one_setup))]
pub fn spellings_are_unique()
    ensures blocks { (tokens : List Token) (a b : List Stmt) → SpellsBlock tokens a → SpellsBlock tokens b → a ≡ b }
    ensures setups { (tokens : List Token) (a b : Declarations) → SpellsSetup tokens a → SpellsSetup tokens b → a ≡ b }
{}
