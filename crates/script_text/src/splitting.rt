//! A script's tokens, split into its parts.

ghost use Rattle.std.specs.Prelude.{◌≡◌, ◌≤◌, length, IfOk, IfSome};
ghost use Rattle.script_text.specs.Sections.{read, last_line, fault_at_end, split_of};
ghost use Rattle.script_text.specs.Script.{ArePartsOf, IsFirstFault};
ghost use Rattle.script_text.specs.declared.syntax.Syntax.{Syntax};
ghost use Rattle.script_text.specs.declared.sections.Sections.{Sections};

use crate::reader::Reader;
use crate::sections::Split;
use crate::steps::{go_on, so_far};
use crate::syntax::Syntax;
use crate::token::{Token, Tokens};
use std::alloc::Global;
use thor_value::NoMemory;

/// What is read of the tokens.
#[tactic(auto, unfolding(crate::specs::Sections::read))]
fn read(alloc: Global, tokens: Tokens) -> Result<Reader, NoMemory>
    ensures { IfOk result (λ reader. reader ≡ read tokens) }
{
    let mut reader = Reader::Start;
    for token in tokens.into_vec() {
        go_on(alloc, &mut reader, token)?;
    }
    Ok(reader)
}

/// The line of the last token, from 1; 1 where there is none.
pub fn last_line(tokens: &[Token]) -> u32
    ensures { result ≡ last_line tokens.now }
{
    match tokens.last() {
        None => 1,
        Some(token) => token.line,
    }
}

/// The fault where the tokens end, on a line.
fn fault_at_end(reader: &Reader, line: u32) -> Option<Syntax>
    ensures { result ≡ fault_at_end reader.now line }
{
    match reader {
        Reader::Setup { closed: false, .. }
        | Reader::Number { .. }
        | Reader::Word { .. }
        | Reader::Item { .. } => Some(Syntax { line }),
        Reader::Stopped { fault, .. } => Some(*fault),
        _ => None,
    }
}

/// How far the tokens fall into parts.
#[tactic(auto, unfolding(crate::specs::Sections::split_of))]
fn split_by(alloc: Global, tokens: Tokens) -> Result<Split, NoMemory>
    ensures split { IfOk result (λ split. split ≡ split_of tokens) }
    ensures short { length tokens ≤ 9223372036854775807 }
{
    let line = last_line(tokens.as_slice());
    let reader = read(alloc, tokens)?;
    let fault = fault_at_end(&reader, line);
    let sections = so_far(alloc, reader)?;
    Ok(Split { sections, fault })
}

/// How far a script's tokens fall into its parts.
pub fn split_sections(alloc: Global, tokens: Tokens) -> Result<Split, NoMemory>
    // The answer is the one that the definition computes.
    ensures split { IfOk result (λ split. split ≡ split_of tokens) }

    // Without a fault the tokens are those of a script, with these parts. They have no others, and tokens that
    // have parts are refused for want of memory alone.
    ensures parts { IfOk result (λ split. split.fault ≡ None → ArePartsOf tokens split.sections) }
    ensures only_parts { (parts : Sections) → ArePartsOf tokens parts → IfOk result (λ split. split ≡ record { sections = parts; fault = None }) }

    // A fault is at the first token that no script goes on with, or else at the last one of tokens that a
    // script only begins with, and there is no other such place.
    ensures first_fault { IfOk result (λ split. IfSome split.fault (IsFirstFault tokens)) }
    ensures only_fault { (fault : Syntax) → IsFirstFault tokens fault → IfOk result (λ split. split.fault ≡ Some fault) }
{
    split_by(alloc, tokens)
}
