//! All tokens as one text of the grammar, and the line where they are none.

ghost use Rattle.std.specs.Prelude.{◌≡◌};
ghost use Rattle.method_parse.specs.Reader.{Gives};
ghost use Rattle.method_parse.specs.Setups.{block_of, setup_of};
ghost use Rattle.method_parse.specs.Texts.{fault_line, IsErrorFor, Answers};

use crate::error::ParseError;
use crate::setups::{MAX_NESTING, setup};
use crate::statements::block_in;
use class_defs::{Block, Declarations, Place};
use script_text::{Syntax, SyntaxError, Token, last_line};
use std::alloc::Global;

/// The line of a fault with so many tokens left.
fn fault_line(tokens: &[Token], left: usize) -> u32
    ensures { result ≡ fault_line tokens.now left }
{
    let at = tokens.len().saturating_sub(left);
    match tokens.get(at) {
        None => last_line(tokens),
        Some(token) => token.line,
    }
}

/// The error of a whole text.
pub fn error_of(tokens: &[Token], error: ParseError) -> SyntaxError
    ensures { IsErrorFor tokens.now error result }
{
    match error {
        ParseError::NoMemory => SyntaxError::NoMemory,
        ParseError::Stuck(left) => SyntaxError::Fault(Syntax {
            line: fault_line(tokens, left),
        }),
    }
}

#[tactic(auto, unfolding(crate::specs::Setups::block_of))]
fn whole_block(alloc: Global, tokens: &[Token]) -> Result<Block, ParseError>
    ensures { Gives (λ x. x) result (block_of tokens.now) }
{
    let (block, rest) = block_in(alloc, Place::Item, MAX_NESTING, tokens)?;
    if rest.is_empty() {
        Ok(block)
    } else {
        Err(ParseError::Stuck(rest.len()))
    }
}

#[tactic(auto, unfolding(crate::specs::Setups::setup_of))]
fn whole_setup(alloc: Global, tokens: &[Token]) -> Result<Declarations, ParseError>
    ensures { Gives (λ x. x) result (setup_of tokens.now) }
{
    let (setup, rest) = setup(alloc, tokens)?;
    if rest.is_empty() {
        Ok(setup)
    } else {
        Err(ParseError::Stuck(rest.len()))
    }
}

/// The block that all tokens are, or the line of the fault.
pub fn block(alloc: Global, tokens: &[Token]) -> Result<Block, SyntaxError>
    ensures { Answers tokens.now result (block_of tokens.now) }
{
    match whole_block(alloc, tokens) {
        Ok(block) => Ok(block),
        Err(stopped) => Err(error_of(tokens, stopped)),
    }
}

/// The setup that all tokens are, or the line of the fault.
pub fn declarations(alloc: Global, tokens: &[Token]) -> Result<Declarations, SyntaxError>
    ensures { Answers tokens.now result (setup_of tokens.now) }
{
    match whole_setup(alloc, tokens) {
        Ok(setup) => Ok(setup),
        Err(stopped) => Err(error_of(tokens, stopped)),
    }
}
