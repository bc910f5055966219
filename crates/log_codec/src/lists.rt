//! Lists of values that have a format.

ghost use Rattle.std.specs.Prelude.{◌≡◌, ◌++◌, OnOk};
ghost use Rattle.std.specs.List.{AllByRecursion, flat_map};
ghost use Rattle.log_codec.specs.Format.{Gives, several};

use crate::fault::BodyFault;
use crate::spelled::Spelled;
use std::alloc::Global;
use thor_value::{NoMemory, Sequence, Text};

/// Reads so many values, one behind the other.
pub(crate) fn read_several<T: Spelled>(
    alloc: Global,
    count: u32,
    bytes: &[u8],
) -> Result<(Sequence<T>, &[u8]), BodyFault>
    ensures { Gives (λ x. (x.0, x.1.now)) result (several T.format.reading count bytes.now) }
{
    // The count is only what the bytes say, so no room is taken for it at once.
    let mut values = Vec::new(alloc);
    let mut rest = bytes;
    for _ in 0..count {
        let (value, after) = T::read(alloc, rest)?;
        values.push(value)?;
        rest = after;
    }
    Ok((Sequence::from_vec(values), rest))
}

/// Puts values one behind the other.
pub(crate) fn put_several<T: Spelled>(values: &[T], out: &mut Text) -> Result<(), NoMemory>
    requires { AllByRecursion T.format.Fits values.now }
    ensures { OnOk result (out.new ≡ out.old ++ flat_map T.format.spelling values.now) }
{
    for value in values {
        value.put(out)?;
    }
    Ok(())
}

impl<T: Spelled> Spelled for Sequence<T> {
    ghost use Rattle.log_codec.specs.Format.{list};

    ghost format = { list T.format };

    fn read(alloc: Global, bytes: &[u8]) -> Result<(Sequence<T>, &[u8]), BodyFault> {
        let (count, rest) = u32::read(alloc, bytes)?;
        read_several(alloc, count, rest)
    }

    #[tactic(auto, using(std::proofs::Common::append_assoc))]
    fn put(&self, out: &mut Text) -> Result<(), NoMemory> {
        let Ok(count) = u32::try_from(self.len()) else {
            return Err(NoMemory);
        };
        count.put(out)?;
        put_several(self.as_slice(), out)
    }
}
