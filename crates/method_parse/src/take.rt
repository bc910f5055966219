//! One token from the front.

ghost use Rattle.std.specs.Prelude.{◌≡◌, ◌≤◌, IfOk};
ghost use Rattle.method_parse.specs.Matching.{is, is_name_kind, is_quoted};
ghost use Rattle.method_parse.specs.Reader.{Gives, next, word, name, name_in, number, quoted, type_word};

use crate::error::ParseError;
use class_defs::{Name, TypeName};
use script_text::{Token, TokenKind};
use thor_value::Word;

/// Whether a token is this keyword or symbol.
pub fn is(token: &Token, text: &[u8]) -> bool
    ensures { result ≡ is text.now token.now }
{
    matches!(token.kind, TokenKind::Keyword | TokenKind::Symbol) && token.text.bytes() == text
}

/// Whether the next token is this keyword or symbol.
pub fn next_is(tokens: &[Token], text: &[u8]) -> bool
    ensures { result ≡ next (is text.now) tokens.now }
{
    match tokens.split_first() {
        None => false,
        Some((token, _)) => is(token, text),
    }
}

/// Whether a token is of the kind of names.
pub fn is_name(token: &Token) -> bool
    ensures { result ≡ is_name_kind token.now.kind }
{
    matches!(token.kind, TokenKind::Name)
}

/// The name that a token is; `None` where it is none.
#[tactic(auto, using(crate::proofs::NameTokens::named))]
fn name_of(token: &Token) -> Option<Name>
    ensures { result ≡ name_in token.now }
{
    if !is_name(token) {
        return None;
    }
    match Word::new(token.text.bytes()) {
        Some(text) => Some(Name {
            text,
            line: token.line,
        }),
        None => None,
    }
}

/// Whether the next token is a text literal.
pub fn next_is_quoted(tokens: &[Token]) -> bool
    ensures { result ≡ next is_quoted tokens.now }
{
    match tokens.split_first() {
        None => false,
        Some((token, _)) => matches!(token.kind, TokenKind::Quoted),
    }
}

/// Takes a keyword or symbol, and gives its line.
#[tactic(auto, unfolding(crate::specs::Reader::word))]
pub fn word<'a>(tokens: &'a [Token], text: &[u8]) -> Result<(u32, &'a [Token]), ParseError>
    ensures { Gives (λ x. (x.0, x.1.now)) result (word text.now tokens.now) }
{
    match tokens.split_first() {
        None => Err(ParseError::Stuck(0)),
        Some((token, rest)) => {
            if is(token, text) {
                Ok((token.line, rest))
            } else {
                Err(ParseError::Stuck(tokens.len()))
            }
        }
    }
}

/// Takes a name.
#[tactic(auto, unfolding(crate::specs::Reader::name))]
pub fn name(tokens: &[Token]) -> Result<(Name, &[Token]), ParseError>
    ensures { Gives (λ x. (x.0, x.1.now)) result (name tokens.now) }
{
    match tokens.split_first() {
        None => Err(ParseError::Stuck(0)),
        Some((token, rest)) => match name_of(token) {
            Some(name) => Ok((name, rest)),
            None => Err(ParseError::Stuck(tokens.len())),
        },
    }
}

/// Takes a number, and gives its line too.
#[tactic(auto, unfolding(crate::specs::Reader::number))]
pub fn number(tokens: &[Token]) -> Result<((u64, u32), &[Token]), ParseError>
    ensures read { Gives (λ x. (x.0, x.1.now)) result (number tokens.now) }
    ensures small { IfOk result (λ x. x.0.0 ≤ 9223372036854775807) }
{
    match tokens.split_first() {
        None => Err(ParseError::Stuck(0)),
        Some((token, rest)) => match script_text::number(token) {
            Some(value) => Ok(((value, token.line), rest)),
            None => Err(ParseError::Stuck(tokens.len())),
        },
    }
}

/// Takes a text literal, and gives its line too.
#[tactic(auto, unfolding(crate::specs::Reader::quoted))]
pub fn quoted(tokens: &[Token]) -> Result<((Word, u32), &[Token]), ParseError>
    ensures { Gives (λ x. (x.0, x.1.now)) result (quoted tokens.now) }
{
    match tokens.split_first() {
        None => Err(ParseError::Stuck(0)),
        Some((token, rest)) => match script_text::literal_text(token) {
            Some(text) => Ok(((text, token.line), rest)),
            None => Err(ParseError::Stuck(tokens.len())),
        },
    }
}

/// Takes the word of a type.
#[tactic(auto, unfolding(crate::specs::Reader::type_word))]
pub fn type_word(tokens: &[Token]) -> Result<(TypeName, &[Token]), ParseError>
    ensures { Gives (λ x. (x.0, x.1.now)) result (type_word tokens.now) }
{
    match tokens.split_first() {
        None => Err(ParseError::Stuck(0)),
        Some((token, rest)) => {
            if is(token, b"int") {
                return Ok((TypeName::Int { line: token.line }, rest));
            }
            match name_of(token) {
                Some(name) => Ok((TypeName::Class { name }, rest)),
                None => Err(ParseError::Stuck(tokens.len())),
            }
        }
    }
}
