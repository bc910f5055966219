//! The lines of the serial history.

ghost use Rattle.std.specs.Prelude.{◌≡◌};
ghost use Rattle.report_parse.specs.Reading.{Gives, made};
ghost use Rattle.report_parse.specs.HistoryLines.{created_at, created_of, effect_at, end_at, upgraded_at, upgraded_of};

use crate::items::values_at;
use crate::names::{fault_at, oref_at, ts_at, who_at};
use crate::numbers::{behind, stripped, u32_at, u64_at};
use crate::part::{Part, read_many};
use crate::report::Line;
use crate::unread::Unread;
use std::alloc::Global;
use thor_value::{Answer, Ints, Oref, Orefs};

/// What a line tells behind the names of the transaction and of its item.
#[derive(Debug, Drop)]
pub(crate) struct Effect {
    number: u32,
    fresh: Orefs,
    answer: Answer,
}

impl Part for Oref {
    ghost use Rattle.report_parse.specs.HistoryLines.{spaced_oref_at};

    ghost reading = { spaced_oref_at };

    #[tactic(auto, unfolding(crate::specs::HistoryLines::spaced_oref_at))]
    fn read(_alloc: Global, bytes: &[u8]) -> Result<(Oref, &[u8]), Unread> {
        let rest = behind(b" ", bytes)?;
        oref_at(rest)
    }
}

/// What a transaction did that answered.
fn answered(fresh: Orefs, answer: Answer) -> Effect
    ensures { result ≡ record { number = 0; fresh = fresh; answer = answer } }
{
    Effect {
        number: 0,
        fresh,
        answer,
    }
}

/// Reads what stands behind `new`.
#[tactic(auto, unfolding(crate::specs::HistoryLines::created_at))]
fn created_at(alloc: Global, bytes: &[u8]) -> Result<(Effect, &[u8]), Unread>
    ensures { Gives (λ x. (x.0, x.1.now)) result (made created_of created_at bytes.now) }
{
    let (fresh, rest) = read_many::<Oref>(alloc, bytes)?;
    if fresh.is_empty() {
        return Err(Unread::Absent);
    }
    let rest = behind(b" :", rest)?;
    let (values, rest) = values_at(alloc, rest)?;
    Ok((answered(fresh, Answer::Ints(values)), rest))
}

/// Reads what stands behind `upgrade`.
#[tactic(auto, unfolding(crate::specs::HistoryLines::upgraded_at))]
fn upgraded_at(alloc: Global, bytes: &[u8]) -> Result<(Effect, &[u8]), Unread>
    ensures { Gives (λ x. (x.0, x.1.now)) result (made upgraded_of upgraded_at bytes.now) }
{
    let (number, rest) = u32_at(bytes)?;
    if number == 0 {
        return Err(Unread::Absent);
    }
    let effect = Effect {
        number,
        fresh: Orefs::new(alloc),
        answer: Answer::Ints(Ints::new(alloc)),
    };
    Ok((effect, rest))
}

/// Reads what an entry did.
#[tactic(auto, unfolding(crate::specs::HistoryLines::effect_at))]
fn effect_at(alloc: Global, bytes: &[u8]) -> Result<(Effect, &[u8]), Unread>
    ensures { Gives (λ x. (x.0, x.1.now)) result (effect_at bytes.now) }
{
    if let Some(rest) = stripped(b" :", bytes) {
        let (values, rest) = values_at(alloc, rest)?;
        Ok((answered(Orefs::new(alloc), Answer::Ints(values)), rest))
    } else if let Some(rest) = stripped(b" new", bytes) {
        created_at(alloc, rest)
    } else if let Some(rest) = stripped(b" ! ", bytes) {
        let (fault, rest) = fault_at(rest)?;
        Ok((answered(Orefs::new(alloc), Answer::Fault(fault)), rest))
    } else {
        let rest = behind(b" upgrade ", bytes)?;
        upgraded_at(alloc, rest)
    }
}

impl Part for Line {
    ghost use Rattle.report_parse.specs.HistoryLines.{line_at};

    ghost reading = { line_at };

    #[tactic(auto, unfolding(crate::specs::HistoryLines::line_at))]
    fn read(alloc: Global, bytes: &[u8]) -> Result<(Line, &[u8]), Unread> {
        let (ts, rest) = ts_at(bytes)?;
        let rest = behind(b" ", rest)?;
        let (who, rest) = who_at(rest)?;
        let (effect, rest) = effect_at(alloc, rest)?;
        let rest = behind(b"\n", rest)?;
        let Effect {
            number,
            fresh,
            answer,
        } = effect;
        let line = Line {
            ts,
            who,
            number,
            fresh,
            answer,
        };
        Ok((line, rest))
    }
}

/// Reads the last line, of a report with so many lines of history.
#[tactic(auto, unfolding(crate::specs::HistoryLines::end_at))]
pub(crate) fn end_at(count: u64, bytes: &[u8]) -> Result<(u64, &[u8]), Unread>
    ensures { Gives (λ x. (x.0, x.1.now)) result (end_at count bytes.now) }
{
    let rest = behind(b"end ", bytes)?;
    let (number, rest) = u64_at(rest)?;
    if number != count {
        return Err(Unread::Absent);
    }
    let rest = behind(b"\n", rest)?;
    Ok((number, rest))
}
