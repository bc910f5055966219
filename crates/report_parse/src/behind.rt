//! The lines behind those of the history: what looks at the past were answered, and how far backups are confirmed.

ghost use Rattle.std.specs.Prelude.{◌≡◌};
ghost use Rattle.report_parse.specs.Reading.{Gives};
ghost use Rattle.report_parse.specs.BehindLines.{looked_at};

use crate::items::values_at;
use crate::names::{fault_at, ts_at};
use crate::numbers::{behind, stripped, u8_at, u32_at, u64_at};
use crate::part::Part;
use crate::report::{Backup, Look, Looked};
use crate::unread::Unread;
use std::alloc::Global;
use thor_value::Answer;

/// Reads what a look has come to.
#[tactic(auto, unfolding(crate::specs::BehindLines::looked_at))]
fn looked_at(alloc: Global, bytes: &[u8]) -> Result<(Looked, &[u8]), Unread>
    ensures { Gives (λ x. (x.0, x.1.now)) result (looked_at bytes.now) }
{
    if let Some(rest) = stripped(b" :", bytes) {
        let (values, rest) = values_at(alloc, rest)?;
        Ok((Looked::Answered(Answer::Ints(values)), rest))
    } else if let Some(rest) = stripped(b" ! ", bytes) {
        let (fault, rest) = fault_at(rest)?;
        Ok((Looked::Answered(Answer::Fault(fault)), rest))
    } else {
        let rest = behind(b" writes", bytes)?;
        Ok((Looked::Writes, rest))
    }
}

impl Part for Look {
    ghost use Rattle.report_parse.specs.BehindLines.{look_at};

    ghost reading = { look_at };

    #[tactic(auto, unfolding(crate::specs::BehindLines::look_at))]
    fn read(alloc: Global, bytes: &[u8]) -> Result<(Look, &[u8]), Unread> {
        let rest = behind(b"look ", bytes)?;
        let (number, rest) = u32_at(rest)?;
        let rest = behind(b" ", rest)?;
        let (ts, rest) = ts_at(rest)?;
        let (looked, rest) = looked_at(alloc, rest)?;
        let rest = behind(b"\n", rest)?;
        Ok((Look { number, ts, looked }, rest))
    }
}

impl Part for Backup {
    ghost use Rattle.report_parse.specs.BehindLines.{backup_at};

    ghost reading = { backup_at };

    #[tactic(auto, unfolding(crate::specs::BehindLines::backup_at))]
    fn read(_alloc: Global, bytes: &[u8]) -> Result<(Backup, &[u8]), Unread> {
        let rest = behind(b"backup ", bytes)?;
        let (repo, rest) = u8_at(rest)?;
        let rest = behind(b" ", rest)?;
        let (place, rest) = u64_at(rest)?;
        let rest = behind(b"\n", rest)?;
        Ok((Backup { repo, place }, rest))
    }
}
