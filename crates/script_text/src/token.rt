use crate::token_bytes::TokenText;
use thor_value::{NoMemory, Sequence, TryCopy};

/// What a token is.
#[derive(Clone, Copy, Debug, PartialEq, Eq)]
pub enum TokenKind {
    /// A letter, and then letters, digits or `_`; at most 32 bytes, and no keyword.
    Name,
    /// Digits with a value of at most 9223372036854775807; at most 19 of them.
    Number,
    /// A word that the language keeps for itself, as `setup`.
    Keyword,
    /// One of `{ } ( ) ; , . = == != < + - *`.
    Symbol,
    /// A text between quotation marks, on one line.
    Quoted,
}

/// One token of a script, with where it stands in the text.
#[derive(Clone, Copy, Debug)]
pub struct Token {
    pub kind: TokenKind,
    /// Its bytes, those from `from` up to `to`.
    pub text: TokenText,
    /// The line on which it stands, from 1.
    pub line: u32,
    /// The place of its first byte, from 0.
    pub from: usize,
    /// The place behind its last byte.
    pub to: usize,
}

/// The tokens of a text, in its order.
pub type Tokens = Sequence<Token>;

impl TryCopy for TokenKind {
    fn copy(&self) -> Result<TokenKind, NoMemory> {
        Ok(*self)
    }
}

impl TryCopy for Token {
    fn copy(&self) -> Result<Token, NoMemory> {
        Ok(*self)
    }
}
