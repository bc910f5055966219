//! The language's text read into trees, and trees printed.
#![tactic(auto)]

mod deep;
mod error;
mod expressions;
mod name_laws;
mod parse;
mod print_statements;
mod printing;
mod printing_laws;
mod setups;
mod starts;
mod statements;
mod take;
mod whole;

pub use deep::Level;
pub use error::ParseError;
pub use expressions::operator;
pub use name_laws::spelled_names_are_names;
pub use parse::{parse_block, parse_setup, spellings_are_unique};
pub use print_statements::{print_block, print_class, print_methods};
pub use printing::{print_literal, print_name, print_type, print_word, symbol};
pub use printing_laws::printed_texts_are_read;
pub use setups::{methods, next_begins_type};
pub use starts::{operator_in, tighter};
pub use take::{name, next_is, next_is_quoted, number, quoted, type_word, word};
pub use whole::error_of;
