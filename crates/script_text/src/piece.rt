use crate::token::TokenKind;

/// What a text begins with, and how many bytes of it that is.
#[derive(Clone, Copy, PartialEq, Eq)]
pub enum Piece {
    /// Bytes between tokens: a separator or a comment.
    Gap(usize),
    /// A token.
    Lexeme(TokenKind, usize),
    /// No token begins so.
    NoToken,
}
