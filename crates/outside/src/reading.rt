ghost use Rattle.std.specs.Prelude.{◌≡◌, ◌<◌, ◌≤◌, ℕ, List, Option, length, take, IfOk, OnOk, OnErr, IsErrOf};
ghost use Rattle.outside.specs.Faults.{Rose};
ghost use Rattle.outside.specs.Streams.{IsAllOf, IsAtEnd, IsMoreThan, Took};

use crate::failed::Failed;
use crate::source::Source;
use std::alloc::Global;
use std::error::Error;
use std::fmt;
use thor_value::{NoMemory, Text};

/// Why a source wasn't read to its end.
#[derive(Clone, Copy, Debug, PartialEq, Eq)]
pub enum ReadAll {
    /// The source met a fault.
    Failed,
    /// More bytes came before the end than were asked for.
    Over,
    /// Memory was not there.
    NoMemory,
}

impl fmt::Display for ReadAll {
    fn fmt<W: fmt::Write>(&self, f: &mut fmt::Formatter<W>) -> fmt::Result {
        match self {
            ReadAll::Failed => write!(f, "the source failed"),
            ReadAll::Over => write!(f, "too many bytes"),
            ReadAll::NoMemory => write!(f, "out of memory"),
        }
    }
}

impl Error for ReadAll {}

/// How many bytes one call asks a source for.
const ROOM: usize = 16384;

/// Whether a source has more to give.
#[derive(Clone, Copy, Debug, PartialEq, Eq)]
enum Turn {
    More,
    End,
}

/// Reads a source to its end, of which at most `limit` bytes may come. After an error some bytes may
/// have been taken.
pub fn read_all<S: Source>(alloc: Global, source: &mut S, limit: usize) -> Result<Text, ReadAll>
    ensures took { IfOk result (λ text. Took (S.left source.old) text (S.left source.new)) }
    ensures end { OnOk result (IsAtEnd (S.left source.new)) }
    ensures all { IfOk result (λ text. IsAllOf text (S.left source.old)) }
    ensures within { IfOk result (λ text. length text ≤ limit) }
    ensures failed { IsErrOf result ReadAll.Failed → Rose (S.faults source.old) (S.faults source.new) }
    ensures over { IsErrOf result ReadAll.Over → IsMoreThan limit (S.left source.old) }
    ensures never_falls { S.faults source.old ≤ S.faults source.new }
{
    let mut text = Text::new(alloc);
    let mut room = [0u8; ROOM];
    while let Turn::More = read_turn(source, &mut room, &mut text, limit)? {}
    Ok(text)
}

/// Reads once, and puts what came behind `text`.
fn read_turn<S: Source>(
    source: &mut S,
    room: &mut [u8],
    text: &mut Text,
    limit: usize,
) -> Result<Turn, ReadAll>
    requires { 0 < length room.old }
    ensures took { OnOk result ((start : Option (List ℕ)) → Took start text.old (S.left source.old) → Took start text.new (S.left source.new)) }
    ensures end { IfOk result (λ turn. turn ≡ Turn.End → IsAtEnd (S.left source.new)) }
    ensures more { IfOk result (λ turn. turn ≡ Turn.More → length text.old < length text.new) }
    ensures within { OnOk result (length text.new ≤ limit) }
    ensures failed { IsErrOf result ReadAll.Failed → Rose (S.faults source.old) (S.faults source.new) }
    ensures over { IsErrOf result ReadAll.Over → (start : Option (List ℕ)) → Took start text.old (S.left source.old) → IsMoreThan limit start }
    ensures never_falls { S.faults source.old ≤ S.faults source.new }
{
    let count = match source.read(room) {
        Ok(count) => count,
        Err(Failed) => return Err(ReadAll::Failed),
    };
    if text.extend_from_slice(&room[..count]).is_err() {
        return Err(ReadAll::NoMemory);
    }
    if text.len() > limit {
        return Err(ReadAll::Over);
    }
    if count == 0 {
        Ok(Turn::End)
    } else {
        Ok(Turn::More)
    }
}
