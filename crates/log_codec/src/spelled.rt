//! Reading and writing values in their formats.

ghost use Rattle.std.specs.Prelude.{◌≡◌, ◌++◌, ◌<◌, ◌^◌, ℕ, List, length, OnOk, OnErr};
ghost use Rattle.log_codec.specs.Format.{Format, Gives};

use crate::fault::BodyFault;
use std::alloc::Global;
use thor_value::{NoMemory, Text};

/// Values that have a format in a log.
pub(crate) trait Spelled: Drop {
    ghost use Rattle.log_codec.specs.Format.{Format};

    /// The format.
    ghost format: { Format Self };

    /// Reads the value at the front, and answers the bytes behind it.
    fn read(alloc: Global, bytes: &[u8]) -> Result<(Self, &[u8]), BodyFault>
        ensures { Gives (λ x. (x.0, x.1.now)) result (format.reading bytes.now) };

    /// Puts the spelling of the value behind the last byte. After `NoMemory` a part of it may stand there.
    fn put(&self, out: &mut Text) -> Result<(), NoMemory>
        requires { format.Fits self.now }
        ensures { OnOk result (out.new ≡ out.old ++ format.spelling self.now) };
}
