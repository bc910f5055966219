//! A text cut into tokens.

ghost use Rattle.std.specs.Prelude.{◌≡◌, ◌+◌, ◌≤◌, ◌<◌, ◌^◌, ℕ, length, take, drop, count_by, IfOk, IfErr, Ok, Err, List};
ghost use Rattle.script_text.specs.Bytes.{is_newline};
ghost use Rattle.script_text.specs.Tokens.{line_at, token_at, tokens_of};
ghost use Rattle.script_text.specs.declared.token.Token.{Token};
ghost use Rattle.script_text.specs.declared.syntax.Syntax.{Syntax};
ghost use Rattle.script_text.specs.Reading.{IsFaultOf, Gives};
ghost use Rattle.script_text.specs.Grammar.{AreTokensOf, StopsAt, IsStopOf};
ghost use Rattle.script_text.specs.Rest.{tokens_from, after, IsPlaceIn, IsPieceAt};
ghost use Rattle.script_text.specs.Laws.{SpansRise, AreSlices, AreSpelled};

use crate::front::first_piece;
use crate::piece::Piece;
use crate::place::Place;
use crate::syntax::{Syntax, SyntaxError};
use crate::token::{Token, TokenKind, Tokens};
use crate::token_bytes::token_text;
use std::alloc::Global;

/// The piece that begins at a place.
fn piece_at(text: &[u8], from: usize) -> Piece
    requires { from < length text.now }
    ensures { IsPieceAt text.now from result }
{
    first_piece(text.split_at(from).1)
}

/// How many lines end in the bytes.
fn lines_ended(bytes: &[u8]) -> usize
    ensures count { result ≡ count_by is_newline bytes.now }
    ensures within { result ≤ length bytes.now }
{
    bytes.iter().filter(|byte| **byte == b'\n').count()
}

/// The place that lies a number of bytes behind another.
fn behind(text: &[u8], place: Place, count: usize) -> Place
    requires place { IsPlaceIn text.now place }
    requires within { place.from + count ≤ length text.now }
    requires short { length text.now < 2 ^ 32 }
    ensures from { result.from ≡ place.from + count }
    ensures place { IsPlaceIn text.now result }
{
    let piece = text.split_at(place.from).1.split_at(count).0;
    Place {
        from: place.from + count,
        line: place.line + lines_ended(piece),
    }
}

/// The token of a kind that has the next bytes, as many as `count`.
fn token_here(text: &[u8], place: Place, kind: TokenKind, count: usize) -> Token
    requires place { IsPlaceIn text.now place }
    requires within { place.from + count ≤ length text.now }
    requires some { 0 < count }
    requires few { count ≤ 34 }
    requires short { length text.now < 2 ^ 32 }
    ensures { result ≡ token_at text.now kind place.from (place.from + count) }
{
    let bytes = text.split_at(place.from).1.split_at(count).0;
    Token {
        kind,
        text: token_text(bytes),
        line: place.line as u32,
        from: place.from,
        to: place.from + count,
    }
}

/// Reads the next piece, and puts its token, where it is one, behind those that were read.
fn scan_piece(text: &[u8], place: Place, tokens: &mut Tokens) -> Result<Place, SyntaxError>
    requires place { IsPlaceIn text.now place }
    requires more { place.from < length text.now }
    requires short { length text.now < 2 ^ 32 }
    ensures place { IfOk result (IsPlaceIn text.now) }
    ensures further { IfOk result (λ next. place.from < next.from) }
    ensures tokens { IfOk result (λ next. after tokens.new (tokens_from text.now next.from)
        ≡ after tokens.old (tokens_from text.now place.from)) }
    ensures fault { IfErr result (IsFaultOf (tokens_from text.now place.from)) }
{
    match piece_at(text, place.from) {
        Piece::Gap(count) => Ok(behind(text, place, count)),
        Piece::Lexeme(kind, count) => {
            tokens.push(token_here(text, place, kind, count))?;
            Ok(behind(text, place, count))
        }
        Piece::NoToken => Err(SyntaxError::Fault(Syntax {
            line: place.line as u32,
        })),
    }
}

/// The tokens of a text.
fn all_tokens(alloc: Global, text: &[u8]) -> Result<Tokens, SyntaxError>
    requires { length text.now < 2 ^ 32 }
    ensures tokens { IfOk result (λ tokens. tokens_of text.now ≡ Ok tokens) }
    ensures fault { IfErr result (IsFaultOf (tokens_of text.now)) }
{
    let mut tokens = Tokens::new(alloc);
    let mut place = Place { from: 0, line: 1 };
    while place.from < text.len() {
        place = scan_piece(text, place, &mut tokens)?;
    }
    Ok(tokens)
}

/// The tokens of a script's text, in order, with where each stands.
///
/// Bytes 9, 10, 13 and 32 separate tokens, and so does a comment, from `//` to the end of its line.
/// `Fault` is at the line of the first byte, outside of comments, that begins no token: a byte of no
/// token, a word of more than 32 bytes, a number past 9223372036854775807 or of more than 19 digits, or a quotation mark
/// behind which stand more than 32 bytes of a text, or other bytes than those of a text and a second quotation mark.
///
/// A line has a number of 32 bits: of a text of 4 GiB or more nothing is told but want of memory.
pub fn scan(alloc: Global, text: &[u8]) -> Result<Tokens, SyntaxError>
    // The answer is the one that the definition computes.
    ensures tokens { IfOk result (λ tokens. tokens_of text.now ≡ Ok tokens) }
    ensures fault { IfErr result (IsFaultOf (tokens_of text.now)) }

    // The text is separators, comments and these tokens. It has no others, and a text that has tokens is
    // refused for want of memory alone.
    ensures read { IfOk result (AreTokensOf text.now) }
    ensures only_tokens { (tokens : List Token) → AreTokensOf text.now tokens → Gives result (Ok tokens) }

    // A fault is where nothing begins that a text is made of, and such a text has no tokens.
    ensures stopped { IfErr result (IsStopOf text.now) }
    ensures only_fault { (fault : Syntax) → StopsAt text.now fault → Gives result (Err fault) }

    // Each token is a part of the text that is spelled as its kind is, and they stand in its order.
    ensures spelled { IfOk result AreSpelled }
    ensures spans { IfOk result (λ tokens. SpansRise 0 tokens (length text.now)) }
    ensures slices { IfOk result (AreSlices text.now) }
{
    if u32::try_from(text.len()).is_err() {
        return Err(SyntaxError::NoMemory);
    }
    all_tokens(alloc, text)
}
