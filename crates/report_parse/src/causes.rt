//! Why an item was refused, as a report has it.

ghost use Rattle.std.specs.Prelude.{◌≡◌};
ghost use Rattle.report_parse.specs.Reading.{Gives, first_of};
ghost use Rattle.report_parse.specs.Causes.{cause_at, other_causes, place_at, ts_with_oref_at};

use crate::names::{oref_at, ts_at};
use crate::numbers::{behind, stripped, u8_at, u32_at, u64_at};
use crate::unread::Unread;
use base_reasons::Reason;
use serial_model::Cause;
use thor_value::{Oref, Ts};

/// Reads a name and a place.
#[tactic(auto, unfolding(crate::specs::Causes::place_at))]
fn place_at(bytes: &[u8]) -> Result<((Oref, u64), &[u8]), Unread>
    ensures { Gives (λ x. (x.0, x.1.now)) result (place_at bytes.now) }
{
    let (oref, rest) = oref_at(bytes)?;
    let rest = behind(b" ", rest)?;
    let (place, rest) = u64_at(rest)?;
    Ok(((oref, place), rest))
}

/// Reads a timestamp and a name.
#[tactic(auto, unfolding(crate::specs::Causes::ts_with_oref_at))]
fn ts_with_oref_at(bytes: &[u8]) -> Result<((Ts, Oref), &[u8]), Unread>
    ensures { Gives (λ x. (x.0, x.1.now)) result (ts_with_oref_at bytes.now) }
{
    let (tx, rest) = ts_at(bytes)?;
    let rest = behind(b" ", rest)?;
    let (oref, rest) = oref_at(rest)?;
    Ok(((tx, oref), rest))
}

/// Reads a cause that names no transaction and no place.
fn other_cause_at(bytes: &[u8]) -> Result<(Cause, &[u8]), Unread>
    ensures { Gives (λ x. (x.0, x.1.now)) result (first_of other_causes bytes.now) }
{
    if let Some(rest) = stripped(b"Epoch ", bytes) {
        let (n, rest) = u32_at(rest)?;
        Ok((Cause::Reason(Reason::Epoch { n }), rest))
    } else if let Some(rest) = stripped(b"Gone ", bytes) {
        let (session, rest) = u32_at(rest)?;
        Ok((Cause::Reason(Reason::Gone { session }), rest))
    } else if let Some(rest) = stripped(b"Missing ", bytes) {
        let (oref, rest) = oref_at(rest)?;
        Ok((Cause::Missing { oref }, rest))
    } else if let Some(rest) = stripped(b"Down ", bytes) {
        let (repo, rest) = u8_at(rest)?;
        Ok((Cause::Down { repo }, rest))
    } else if let Some(rest) = stripped(b"Full ", bytes) {
        let (limit, rest) = u32_at(rest)?;
        Ok((Cause::Reason(Reason::Full { limit }), rest))
    } else if let Some(rest) = stripped(b"ClockEnd", bytes) {
        Ok((Cause::Reason(Reason::ClockEnd), rest))
    } else {
        let rest = behind(b"Calls", bytes)?;
        Ok((Cause::Calls, rest))
    }
}

/// Reads a cause.
#[tactic(auto, unfolding(crate::specs::Causes::cause_at))]
pub(crate) fn cause_at(bytes: &[u8]) -> Result<(Cause, &[u8]), Unread>
    ensures { Gives (λ x. (x.0, x.1.now)) result (cause_at bytes.now) }
{
    if let Some(rest) = stripped(b"Stale ", bytes) {
        let ((oref, place), rest) = place_at(rest)?;
        Ok((Cause::Reason(Reason::Stale { oref, place }), rest))
    } else if let Some(rest) = stripped(b"Earlier ", bytes) {
        let ((tx, oref), rest) = ts_with_oref_at(rest)?;
        Ok((Cause::Reason(Reason::Earlier { tx, oref }), rest))
    } else if let Some(rest) = stripped(b"Later ", bytes) {
        let ((tx, oref), rest) = ts_with_oref_at(rest)?;
        Ok((Cause::Reason(Reason::Later { tx, oref }), rest))
    } else if let Some(rest) = stripped(b"TooOld ", bytes) {
        let (threshold, rest) = ts_at(rest)?;
        Ok((Cause::Reason(Reason::TooOld { threshold }), rest))
    } else if let Some(rest) = stripped(b"Blocked ", bytes) {
        let (tx, rest) = ts_at(rest)?;
        Ok((Cause::Reason(Reason::Blocked { tx }), rest))
    } else {
        other_cause_at(bytes)
    }
}
