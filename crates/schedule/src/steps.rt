//! A schedule, read token by token.

ghost use Rattle.std.specs.Prelude.{◌≡◌, [], ◌∷◌, ◌++◌, IfOk};
ghost use Rattle.schedule.specs.Schedule.{Mark, IsName, IsPoint, IsNumber, mark_of, alone_event, pair_event, stop, ready_step, named_step, dotted_step, step};

use crate::events::{Event, Events};
use crate::kinds::{alone, pair};
use crate::reader::Reader;
use script_text::{Syntax, Token, TokenKind, TokenText};
use thor_value::NoMemory;

/// The token can't stand here.
fn stop(token: &Token) -> Reader
    ensures { result ≡ stop token.now }
{
    let line = token.line;
    Reader::Stopped {
        fault: Syntax { line },
    }
}

/// An event that is a name alone, behind the others.
pub fn with_alone(events: Events, line: u32, name: &TokenText) -> Result<Events, NoMemory>
    ensures { IfOk result (λ more. more ≡ events ++ alone_event line name.now ∷ []) }
{
    let mut events = events;
    let kind = alone(name.bytes());
    events.push(Event { line, kind })?;
    Ok(events)
}

/// An event that is a name and a number, behind the others.
fn with_pair(
    events: Events,
    line: u32,
    name: &TokenText,
    number: &TokenText,
) -> Result<Events, NoMemory>
    ensures { IfOk result (λ more. more ≡ events ++ pair_event line name.now number.now ∷ []) }
{
    let mut events = events;
    let kind = pair(name.bytes(), number.bytes());
    events.push(Event { line, kind })?;
    Ok(events)
}

/// A name behind whole events.
fn named(events: Events, token: &Token) -> Result<Reader, NoMemory>
    ensures { IfOk result (λ next. next ≡ ready_step IsName events token.now) }
{
    let line = token.line;
    let name = token.text;
    Ok(Reader::Named { events, line, name })
}

#[tactic(auto, unfolding(crate::specs::Schedule::mark_of))]
fn ready_step(events: Events, token: &Token) -> Result<Reader, NoMemory>
    ensures { IfOk result (λ next. next ≡ ready_step (mark_of token.now) events token.now) }
{
    match token.kind {
        TokenKind::Name => named(events, token),
        TokenKind::Symbol => Ok(stop(token)),
        TokenKind::Number | TokenKind::Keyword | TokenKind::Quoted => Ok(stop(token)),
    }
}

#[tactic(auto, unfolding(crate::specs::Schedule::mark_of))]
fn named_step(events: Events, line: u32, name: TokenText, token: &Token) -> Result<Reader, NoMemory>
    ensures { IfOk result (λ next. next ≡ named_step (mark_of token.now) events line name token.now) }
{
    match token.kind {
        TokenKind::Name => named(with_alone(events, line, &name)?, token),
        TokenKind::Symbol => {
            if token.text.bytes() == b".".as_slice() {
                Ok(Reader::Dotted { events, line, name })
            } else {
                Ok(stop(token))
            }
        }
        TokenKind::Number | TokenKind::Keyword | TokenKind::Quoted => Ok(stop(token)),
    }
}

#[tactic(auto, unfolding(crate::specs::Schedule::mark_of))]
fn dotted_step(
    events: Events,
    line: u32,
    name: TokenText,
    token: &Token,
) -> Result<Reader, NoMemory>
    ensures { IfOk result (λ next. next ≡ dotted_step (mark_of token.now) events line name token.now) }
{
    match token.kind {
        TokenKind::Number => Ok(Reader::Ready {
            events: with_pair(events, line, &name, &token.text)?,
        }),
        TokenKind::Name | TokenKind::Symbol | TokenKind::Keyword | TokenKind::Quoted => {
            Ok(stop(token))
        }
    }
}

/// What was read, with one more token.
#[tactic(auto, unfolding(crate::specs::Schedule::step))]
pub fn step(reader: Reader, token: &Token) -> Result<Reader, NoMemory>
    ensures { IfOk result (λ next. next ≡ step reader token.now) }
{
    match reader {
        Reader::Ready { events } => ready_step(events, token),
        Reader::Named { events, line, name } => named_step(events, line, name, token),
        Reader::Dotted { events, line, name } => dotted_step(events, line, name, token),
        Reader::Stopped { fault } => Ok(Reader::Stopped { fault }),
    }
}
