//! Why repositories weren't found to fit together.

ghost use Rattle.std.specs.Prelude.{◌≡◌};
ghost use Rattle.store_opening.specs.declared.misfit.Misfit.TheVariants.{NoMemory as OutOfMemory};

use thor_value::NoMemory;

/// Why the repositories of a store weren't found to fit together.
#[derive(Clone, Copy)]
pub(crate) enum Misfit {
    /// They don't: by the checkpoint of this one, or by a name of this one.
    Of { repo: u8 },
    /// Memory was not there.
    NoMemory,
}

impl From<NoMemory> for Misfit {
    ghost from_gives = { λ _ fault. fault ≡ OutOfMemory };

    fn from(_refused: NoMemory) -> Misfit {
        Misfit::NoMemory
    }
}
