//! The tokens of a schedule, read as its events.

ghost use Rattle.std.specs.Prelude.{◌≡◌, IfOk, IfErr, Ok, Err, List};
ghost use Rattle.script_text.specs.Reading.{Gives};
ghost use Rattle.script_text.specs.declared.syntax.Syntax.{Syntax};
ghost use Rattle.schedule.specs.declared.events.Event.{Event};
ghost use Rattle.schedule.specs.Written.{AreEventsOf, IsFirstFault, IsFaultIn};
ghost use Rattle.schedule.specs.Schedule.{read, at_end, events_of};

use crate::events::Events;
use crate::reader::Reader;
use crate::steps::{step, with_alone};
use script_text::{Syntax, SyntaxError, Token, Tokens, last_line};
use std::alloc::Global;
use thor_value::NoMemory;

/// What is read of the tokens.
#[tactic(auto, unfolding(crate::specs::Schedule::read))]
fn read(alloc: Global, tokens: &[Token]) -> Result<Reader, NoMemory>
    ensures { IfOk result (λ reader. reader ≡ read tokens.now) }
{
    let mut reader = Reader::Ready {
        events: Events::new(alloc),
    };
    for token in tokens {
        reader = step(reader, token)?;
    }
    Ok(reader)
}

/// What was read when the tokens end, on a line.
fn at_end(reader: Reader, line: u32) -> Result<Events, SyntaxError>
    ensures { Gives result (at_end reader line) }
{
    match reader {
        Reader::Ready { events } => Ok(events),
        Reader::Named {
            events,
            line: named,
            name,
        } => Ok(with_alone(events, named, &name)?),
        Reader::Dotted {
            events: _events,
            line: _named,
            name: _name,
        } => Err(SyntaxError::Fault(Syntax { line })),
        Reader::Stopped { fault } => Err(SyntaxError::Fault(fault)),
    }
}

/// The events of the tokens, or their fault.
#[tactic(auto, unfolding(crate::specs::Schedule::events_of))]
fn events_by(alloc: Global, tokens: &Tokens) -> Result<Events, SyntaxError>
    ensures { Gives result (events_of tokens.now) }
{
    let reader = read(alloc, tokens.as_slice())?;
    at_end(reader, last_line(tokens.as_slice()))
}

/// The events of a schedule's tokens, in order, each with the line of its name.
///
/// An event is a name, or a name, a `.` and a number. One that is none of the seven is kept as unknown.
/// `Fault` is at the first token that no schedule goes on with; where the tokens end behind a `.`, at the last.
pub fn parse_schedule(alloc: Global, tokens: &Tokens) -> Result<Events, SyntaxError>
    // The answer is the one that the definition computes.
    ensures read { Gives result (events_of tokens.now) }

    // A schedule is these tokens, with these events. They have no others, and a schedule is refused for want
    // of memory alone.
    ensures events { IfOk result (AreEventsOf tokens.now) }
    ensures only_events { (events : List Event) → AreEventsOf tokens.now events → Gives result (Ok events) }

    // A fault is at the first token that no schedule goes on with, or else at the last one of tokens that a
    // schedule only begins with, and there is no other such place.
    ensures first_fault { IfErr result (IsFaultIn tokens.now) }
    ensures only_fault { (fault : Syntax) → IsFirstFault tokens.now fault → Gives result (Err fault) }
{
    events_by(alloc, tokens)
}
