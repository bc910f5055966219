//! What a text begins with.

ghost use Rattle.std.specs.Prelude.{◌≡◌, ◌≤◌, length, ◌==◌};
ghost use Rattle.std.specs.List.{list_any};
ghost use Rattle.std.specs.Str.Parse.{digits_value, AllDigits};
ghost use Rattle.script_text.specs.Words.{short_symbols};
ghost use Rattle.script_text.specs.Pieces.{word_piece, number_piece, quoted_piece, symbol_piece, first_piece};

use crate::lengths::{digits_length, is_separator, line_length, literal_length, word_length};
use crate::piece::Piece;
use crate::token::TokenKind;
use crate::words::is_keyword;
use thor_value::WORD_BYTES;

/// The most bytes of a name.
const NAME_BYTES: usize = 32;

/// The most digits of a number.
const NUMBER_DIGITS: usize = 19;

/// The greatest number.
const GREATEST: u64 = 9223372036854775807;

/// The symbols of one byte.
const SHORT_SYMBOLS: &[u8] = b"{}();,.=<+-*";

#[tactic(auto, unfolding(crate::specs::Pieces::word_piece))]
fn word_piece(word: &[u8]) -> Piece
    ensures { result ≡ word_piece word.now }
{
    if NAME_BYTES < word.len() {
        return Piece::NoToken;
    }
    let kind = if is_keyword(word) {
        TokenKind::Keyword
    } else {
        TokenKind::Name
    };
    Piece::Lexeme(kind, word.len())
}

/// The value of digits.
fn digits_value(digits: &[u8]) -> u64
    requires few { length digits.now ≤ 19 }
    requires digits { AllDigits 10 digits.now }
    ensures { result ≡ digits_value 10 digits.now }
{
    let mut value: u64 = 0;
    for digit in digits {
        value = value * 10 + u64::from(*digit - b'0');
    }
    value
}

#[tactic(auto, unfolding(crate::specs::Pieces::number_piece))]
fn number_piece(digits: &[u8]) -> Piece
    requires { AllDigits 10 digits.now }
    ensures { result ≡ number_piece digits.now }
{
    if NUMBER_DIGITS < digits.len() || GREATEST < digits_value(digits) {
        return Piece::NoToken;
    }
    Piece::Lexeme(TokenKind::Number, digits.len())
}

fn is_short_symbol(byte: u8) -> bool
    ensures { result ≡ list_any (λ symbol. symbol == byte) short_symbols }
{
    SHORT_SYMBOLS.contains(&byte)
}

#[tactic(auto, unfolding(crate::specs::Pieces::symbol_piece))]
fn symbol_piece(text: &[u8]) -> Piece
    ensures { result ≡ symbol_piece text.now }
{
    match text {
        [] => Piece::NoToken,
        [byte, ..] => {
            if text.starts_with(b"==") || text.starts_with(b"!=") {
                Piece::Lexeme(TokenKind::Symbol, 2)
            } else if is_short_symbol(*byte) {
                Piece::Lexeme(TokenKind::Symbol, 1)
            } else {
                Piece::NoToken
            }
        }
    }
}

/// What a quotation mark begins, where the bytes of a text literal stand behind it, and then other bytes.
#[tactic(auto, unfolding(crate::specs::Pieces::quoted_piece))]
fn quoted_piece(inside: &[u8], behind: &[u8]) -> Piece
    ensures { result ≡ quoted_piece inside.now behind.now }
{
    if WORD_BYTES < inside.len() {
        return Piece::NoToken;
    }
    if behind.starts_with(b"\"") {
        Piece::Lexeme(TokenKind::Quoted, inside.len() + 2)
    } else {
        Piece::NoToken
    }
}

/// What a text begins with; the empty text with no token.
#[tactic(auto, using(crate::proofs::Digits::all_digits_front), unfolding(crate::specs::Pieces::first_piece))]
pub fn first_piece(text: &[u8]) -> Piece
    ensures { result ≡ first_piece text.now }
{
    match text {
        [] => Piece::NoToken,
        [byte, rest @ ..] => {
            if byte.is_ascii_alphabetic() {
                word_piece(text.split_at(word_length(text)).0)
            } else if byte.is_ascii_digit() {
                number_piece(text.split_at(digits_length(text)).0)
            } else if is_separator(*byte) {
                Piece::Gap(1)
            } else if text.starts_with(b"//") {
                Piece::Gap(line_length(text))
            } else if *byte == b'"' {
                let (inside, behind) = rest.split_at(literal_length(rest));
                quoted_piece(inside, behind)
            } else {
                symbol_piece(text)
            }
        }
    }
}
