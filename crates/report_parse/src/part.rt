//! Parts of a report, one behind the other.

ghost use Rattle.std.specs.Prelude.{◌≡◌, IfOk, length};
ghost use Rattle.report_parse.specs.Reading.{Gives, many};

use crate::unread::Unread;
use std::alloc::Global;
use thor_value::{NoMemory, Sequence};

/// What stands in a report again and again.
pub(crate) trait Part: Drop {
    ghost use Rattle.std.specs.Prelude.{ℕ, List, Option};

    /// What bytes begin with, and the bytes behind it.
    ghost reading: { List ℕ → Option (Self × List ℕ) };

    /// Reads the part at the front, and answers the bytes behind it.
    fn read(alloc: Global, bytes: &[u8]) -> Result<(Self, &[u8]), Unread>
        ensures { Gives (λ x. (x.0, x.1.now)) result (reading bytes.now) };
}

/// Reads parts one behind the other, as many as there are, and answers the bytes behind them.
pub(crate) fn read_many<T: Part>(
    alloc: Global,
    bytes: &[u8],
) -> Result<(Sequence<T>, &[u8]), NoMemory>
    ensures { IfOk result (λ x. many T.reading (length bytes.now) bytes.now ≡ (x.0, x.1.now)) }
{
    let mut parts = Vec::new(alloc);
    let mut rest = bytes;
    // Each part has a byte, so there are no more of them than bytes.
    for _ in 0..bytes.len() {
        match T::read(alloc, rest) {
            Ok((part, after)) => {
                parts.push(part)?;
                rest = after;
            }
            Err(Unread::Absent) => return Ok((Sequence::from_vec(parts), rest)),
            Err(Unread::NoMemory) => return Err(NoMemory),
        }
    }
    Ok((Sequence::from_vec(parts), rest))
}
