//! The text of a script, cut into tokens and sections.
#![tactic(auto)]

mod front;
mod lengths;
mod mark;
mod marking;
mod numbers;
mod piece;
mod place;
mod reader;
mod scanning;
mod sections;
mod splitting;
mod steps;
mod syntax;
mod token;
mod token_bytes;
mod words;

pub use marking::{literal_text, number};
pub use numbers::digits_value;
pub use scanning::scan;
pub use sections::{ClientParts, ItemParts, Sections, Split};
pub use splitting::{last_line, split_sections};
pub use syntax::{Syntax, SyntaxError};
pub use token::{Token, TokenKind, Tokens};
pub use token_bytes::TokenText;
