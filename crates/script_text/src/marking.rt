//! What single tokens are for the parts of a script.

ghost use Rattle.std.specs.Prelude.{◌≡◌, ◌≤◌, IfSome};
ghost use Rattle.script_text.specs.Marks.{keyword_mark, symbol_mark, mark_of, number_in, inside, text_in};

use crate::mark::Mark;
use crate::numbers::digits_value;
use crate::token::{Token, TokenKind};
use thor_value::Word;

/// The greatest number of a token.
const GREATEST: u64 = 9223372036854775807;

fn keyword_mark(text: &[u8]) -> Mark
    ensures { result ≡ keyword_mark text.now }
{
    if text == b"setup".as_slice() {
        Mark::Setup
    } else if text == b"client".as_slice() {
        Mark::Client
    } else if text == b"tx".as_slice() {
        Mark::Tx
    } else if text == b"upgrade".as_slice() {
        Mark::Upgrade
    } else if text == b"schedule".as_slice() {
        Mark::Schedule
    } else {
        Mark::Other
    }
}

fn symbol_mark(text: &[u8]) -> Mark
    ensures { result ≡ symbol_mark text.now }
{
    if text == b"{".as_slice() {
        Mark::Open
    } else if text == b"}".as_slice() {
        Mark::Close
    } else if text == b";".as_slice() {
        Mark::End
    } else {
        Mark::Other
    }
}

/// What the token is.
#[tactic(auto, unfolding(crate::specs::Marks::mark_of))]
pub fn mark(token: &Token) -> Mark
    ensures { result ≡ mark_of token.now }
{
    match token.kind {
        TokenKind::Keyword => keyword_mark(token.text.bytes()),
        TokenKind::Symbol => symbol_mark(token.text.bytes()),
        TokenKind::Name | TokenKind::Number | TokenKind::Quoted => Mark::Other,
    }
}

/// The number that the token is, from 0 to 9223372036854775807; `None` where it is no number.
pub fn number(token: &Token) -> Option<u64>
    ensures value { result ≡ number_in token.now }
    ensures small { IfSome result (λ n. n ≤ 9223372036854775807) }
{
    match token.kind {
        TokenKind::Number => digits_value(GREATEST, token.text.bytes()),
        _ => None,
    }
}

fn inside(text: &[u8]) -> &[u8]
    ensures { result.now ≡ inside text.now }
{
    match text {
        [] => text,
        [_, rest @ ..] => rest.split_at(rest.len().saturating_sub(1)).0,
    }
}

/// The text that the token writes between its quotation marks; `None` where it is no text literal.
pub fn literal_text(token: &Token) -> Option<Word>
    ensures { result ≡ text_in token.now }
{
    match token.kind {
        TokenKind::Quoted => Word::new(inside(token.text.bytes())),
        _ => None,
    }
}
