use lang_small_steps::Doing;
use thor_value::{Oref, Orefs};

/// What a small step came to.
#[derive(Drop)]
pub enum Moved {
    /// This is done next.
    To {
        doing: Doing,
    },
    /// The same is done again once this object is at hand. Its owners follow, nearest first.
    Waits {
        doing: Doing,
        oref: Oref,
        owners: Orefs,
    },
    /// The same is done again once there is a name for a new object in this repository.
    WaitsForName {
        doing: Doing,
        repo: u8,
    },
}
