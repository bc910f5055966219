//! Why nothing is told of a run.

ghost use Rattle.std.specs.Prelude.{◌≡◌};
ghost use Rattle.top_reply.specs.declared.untold.Untold.TheVariants.{NoMemory as OutOfMemory};

use thor_value::NoMemory;

/// Why nothing is told of a run.
#[derive(Clone, Copy, Debug, PartialEq, Eq)]
pub enum Untold {
    /// Its history isn't a serial one from the store that answers the script's items, or an item that nothing hinders didn't end at
    /// once. No run is to come to this.
    Unsound,
    /// Memory was not there.
    NoMemory,
}

impl From<NoMemory> for Untold {
    ghost from_gives = { λ _ why. why ≡ OutOfMemory };

    fn from(_refused: NoMemory) -> Untold {
        Untold::NoMemory
    }
}
