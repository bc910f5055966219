//! What was read of the objects of which a client may have copies.

ghost use Rattle.std.specs.Option.{option_and_then, option_copied};
ghost use Rattle.std.specs.Prelude.{◌≡◌};
ghost use Rattle.thor_value.specs.FiniteMap.{get};
ghost use Rattle.model_reading.specs.Against.{invalid_by};

use crate::against::invalid_at;
use crate::reading::Reading;
use thor_value::{Obj, Oref};

impl Reading {
    /// An object as it stands behind the trace, where there is one.
    pub fn object(&self, oref: Oref) -> Option<&Obj>
        ensures { option_copied result ≡ get self.now.state.objects oref }
    {
        self.state.objects().get(&oref)
    }

    /// Where an object stands in the invalid set of the session of this number, which was looked for.
    pub fn invalid_place(&self, number: u32, oref: Oref) -> Option<u64>
        ensures { result ≡ option_and_then (λ v. invalid_by self.now.commits number v oref) self.now.session }
    {
        match &self.session {
            Some(session) => invalid_at(self.commits.as_slice(), number, session, oref),
            None => None,
        }
    }
}
