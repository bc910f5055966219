//! Whole bodies: bytes that are read from the first to the last, and spelled into a text of their own.

ghost use Rattle.std.specs.Prelude.{◌≡◌, ◌<◌, ◌^◌, [], length, IfOk};
ghost use Rattle.log_codec.specs.Format.{Gives, value_of};

use crate::fault::BodyFault;
use crate::spelled::Spelled;
use std::alloc::Global;
use thor_value::{NoMemory, Text};

/// Reads the value that the bytes spell, from the first to the last.
pub(crate) fn read_whole<T: Spelled>(alloc: Global, bytes: &[u8]) -> Result<T, BodyFault>
    ensures { Gives (λ x. x) result (value_of T.format bytes.now) }
{
    let (value, rest) = T::read(alloc, bytes)?;
    if rest.is_empty() {
        Ok(value)
    } else {
        Err(BodyFault::NotOne)
    }
}

/// The empty text, with room for so many bytes.
pub(crate) fn empty_text(alloc: Global, room: usize) -> Result<Text, NoMemory>
    ensures { IfOk result (λ text. text ≡ []) }
{
    Ok(Text::from_vec(Vec::with_capacity(alloc, room)?))
}

/// A text whose length a `u32` can tell; want of memory for a longer one.
pub(crate) fn short_text(put: Text) -> Result<Text, NoMemory>
    ensures same { IfOk result (λ short. short ≡ put) }
    ensures short { IfOk result (λ short. length short < 2 ^ 32) }
{
    match u32::try_from(put.len()) {
        Ok(_) => Ok(put),
        Err(_) => Err(NoMemory),
    }
}
