//! What a token begins.

ghost use Rattle.std.specs.Prelude.{◌≡◌, ◌<◌, true};
ghost use Rattle.method_parse.specs.Reader.{next};
ghost use Rattle.upgrade_defs.specs.Expressions.{is_join, is_minus, is_open};

use crate::deep::Deep;
use method_parse::{Level, next_is, operator_in};
use script_text::Token;

/// Whether the next token opens a parenthesis, with room for so much depth.
pub fn is_open(room: u32, tokens: &[Token]) -> bool
    ensures value { result ≡ next (is_open room) tokens.now }
    ensures deep { result ≡ true → 1 < room }
{
    1 < room && next_is(tokens, b"(")
}

/// Whether the next token is a minus before an operand.
pub fn is_minus(room: u32, tokens: &[Token]) -> bool
    ensures value { result ≡ next (is_minus room) tokens.now }
    ensures deep { result ≡ true → 1 < room }
{
    1 < room && next_is(tokens, b"-")
}

/// Whether the next token joins an expression to one more operand.
pub fn is_join(level: Level, room: u32, left: &Deep, tokens: &[Token]) -> bool
    ensures value { result ≡ next (is_join level room left.now) tokens.now }
    ensures deep { result ≡ true → left.now.depth < room }
{
    match tokens.split_first() {
        None => false,
        Some((token, _)) => operator_in(level, token).is_some() && left.depth < room,
    }
}
