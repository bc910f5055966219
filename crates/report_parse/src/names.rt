//! The words of a report that stand for names, timestamps and faults.

ghost use Rattle.std.specs.Prelude.{◌≡◌};
ghost use Rattle.report_parse.specs.Reading.{Gives};
ghost use Rattle.report_parse.specs.Words.{fault_at, oref_at, ts_at, who_at};

use crate::numbers::{behind, stripped, u8_at, u32_at, u64_at};
use crate::unread::Unread;
use thor_value::{Fault, Oref, Ts, Who};

/// Reads an item's client and index.
#[tactic(auto, unfolding(crate::specs::Words::who_at))]
pub(crate) fn who_at(bytes: &[u8]) -> Result<(Who, &[u8]), Unread>
    ensures { Gives (λ x. (x.0, x.1.now)) result (who_at bytes.now) }
{
    let (client, rest) = u8_at(bytes)?;
    let rest = behind(b".", rest)?;
    let (index, rest) = u32_at(rest)?;
    Ok((Who { client, index }, rest))
}

/// Reads a timestamp: its time, repository and life.
#[tactic(auto, unfolding(crate::specs::Words::ts_at))]
pub(crate) fn ts_at(bytes: &[u8]) -> Result<(Ts, &[u8]), Unread>
    ensures { Gives (λ x. (x.0, x.1.now)) result (ts_at bytes.now) }
{
    let (time, rest) = u64_at(bytes)?;
    let rest = behind(b".", rest)?;
    let (repo, rest) = u8_at(rest)?;
    let rest = behind(b".", rest)?;
    let (life, rest) = u32_at(rest)?;
    Ok((Ts { time, repo, life }, rest))
}

/// Reads a name: its repository, page and slot.
#[tactic(auto, unfolding(crate::specs::Words::oref_at))]
pub(crate) fn oref_at(bytes: &[u8]) -> Result<(Oref, &[u8]), Unread>
    ensures { Gives (λ x. (x.0, x.1.now)) result (oref_at bytes.now) }
{
    let (repo, rest) = u8_at(bytes)?;
    let rest = behind(b".", rest)?;
    let (page, rest) = u32_at(rest)?;
    let rest = behind(b".", rest)?;
    let (slot, rest) = u8_at(rest)?;
    Ok((Oref { repo, page, slot }, rest))
}

/// Reads a fault by its name.
#[tactic(auto, unfolding(crate::specs::Words::fault_at))]
pub(crate) fn fault_at(bytes: &[u8]) -> Result<(Fault, &[u8]), Unread>
    ensures { Gives (λ x. (x.0, x.1.now)) result (fault_at bytes.now) }
{
    if let Some(rest) = stripped(b"NullCall", bytes) {
        Ok((Fault::NullCall, rest))
    } else if let Some(rest) = stripped(b"Steps", bytes) {
        Ok((Fault::Steps, rest))
    } else if let Some(rest) = stripped(b"Depth", bytes) {
        Ok((Fault::Depth, rest))
    } else {
        let rest = behind(b"Large", bytes)?;
        Ok((Fault::Large, rest))
    }
}
