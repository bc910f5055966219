//! The lines of items: how each ended.

ghost use Rattle.std.specs.Prelude.{◌≡◌};
ghost use Rattle.report_parse.specs.Reading.{Gives, made};
ghost use Rattle.report_parse.specs.Items.{done_at, done_of, faulted_at, faulted_of, item_at, outcome_at, refused_at, refused_of, tries_at, values_at};

use crate::causes::cause_at;
use crate::names::{fault_at, ts_at, who_at};
use crate::numbers::{behind, int_at, stripped, u32_at};
use crate::part::{Part, read_many};
use crate::unread::Unread;
use serial_model::{Ended, ItemOutcome};
use std::alloc::Global;
use thor_value::Ints;

impl Part for i64 {
    ghost use Rattle.report_parse.specs.Numbers.{spaced_int_at};

    ghost reading = { spaced_int_at };

    #[tactic(auto, unfolding(crate::specs::Numbers::spaced_int_at))]
    fn read(_alloc: Global, bytes: &[u8]) -> Result<(i64, &[u8]), Unread> {
        let rest = behind(b" ", bytes)?;
        int_at(rest)
    }
}

/// Reads printed values.
#[tactic(auto, unfolding(crate::specs::Items::values_at))]
pub(crate) fn values_at(alloc: Global, bytes: &[u8]) -> Result<(Ints, &[u8]), Unread>
    ensures { Gives (λ x. (x.0, x.1.now)) result (values_at bytes.now) }
{
    let (values, rest) = read_many::<i64>(alloc, bytes)?;
    Ok((values, rest))
}

/// Reads how often an item was tried.
#[tactic(auto, unfolding(crate::specs::Items::tries_at))]
fn tries_at(bytes: &[u8]) -> Result<(u32, &[u8]), Unread>
    ensures { Gives (λ x. (x.0, x.1.now)) result (tries_at bytes.now) }
{
    let rest = behind(b" try ", bytes)?;
    u32_at(rest)
}

/// Reads what stands behind `Done`.
#[tactic(auto, unfolding(crate::specs::Items::done_at))]
fn done_at(alloc: Global, bytes: &[u8]) -> Result<((u32, ItemOutcome), &[u8]), Unread>
    ensures { Gives (λ x. (x.0, x.1.now)) result (made done_of done_at bytes.now) }
{
    let (ts, rest) = ts_at(bytes)?;
    let (tries, rest) = tries_at(rest)?;
    if let Some(rest) = stripped(b" :", rest) {
        let (answer, rest) = values_at(alloc, rest)?;
        Ok(((tries, ItemOutcome::Done { ts, answer }), rest))
    } else {
        let rest = behind(b" upgrade ", rest)?;
        let (number, rest) = u32_at(rest)?;
        Ok(((tries, ItemOutcome::Upgraded { ts, number }), rest))
    }
}

/// Reads what stands behind `Faulted`.
#[tactic(auto, unfolding(crate::specs::Items::faulted_at))]
fn faulted_at(bytes: &[u8]) -> Result<((u32, ItemOutcome), &[u8]), Unread>
    ensures { Gives (λ x. (x.0, x.1.now)) result (made faulted_of faulted_at bytes.now) }
{
    let (fault, rest) = fault_at(bytes)?;
    let rest = behind(b" ", rest)?;
    let (ts, rest) = ts_at(rest)?;
    let (tries, rest) = tries_at(rest)?;
    Ok(((tries, ItemOutcome::Faulted { ts, fault }), rest))
}

/// Reads what stands behind `Refused`.
#[tactic(auto, unfolding(crate::specs::Items::refused_at))]
fn refused_at(bytes: &[u8]) -> Result<((u32, ItemOutcome), &[u8]), Unread>
    ensures { Gives (λ x. (x.0, x.1.now)) result (made refused_of refused_at bytes.now) }
{
    let (cause, rest) = cause_at(bytes)?;
    let (tries, rest) = tries_at(rest)?;
    Ok(((tries, ItemOutcome::Refused { cause }), rest))
}

/// Reads how often an item was tried, and how it ended.
#[tactic(auto, unfolding(crate::specs::Items::outcome_at))]
fn outcome_at(alloc: Global, bytes: &[u8]) -> Result<((u32, ItemOutcome), &[u8]), Unread>
    ensures { Gives (λ x. (x.0, x.1.now)) result (outcome_at bytes.now) }
{
    if let Some(rest) = stripped(b" Done ", bytes) {
        done_at(alloc, rest)
    } else if let Some(rest) = stripped(b" Faulted ", bytes) {
        faulted_at(rest)
    } else if let Some(rest) = stripped(b" Refused ", bytes) {
        refused_at(rest)
    } else {
        let rest = behind(b" Unknown ", bytes)?;
        let (tx, rest) = ts_at(rest)?;
        Ok(((0, ItemOutcome::Unknown { tx }), rest))
    }
}

impl Part for Ended {
    ghost use Rattle.report_parse.specs.Items.{item_at};

    ghost reading = { item_at };

    #[tactic(auto, unfolding(crate::specs::Items::item_at))]
    fn read(alloc: Global, bytes: &[u8]) -> Result<(Ended, &[u8]), Unread> {
        let (who, rest) = who_at(bytes)?;
        let ((tries, outcome), rest) = outcome_at(alloc, rest)?;
        let rest = behind(b"\n", rest)?;
        Ok((
            Ended {
                who,
                tries,
                outcome,
            },
            rest,
        ))
    }
}
