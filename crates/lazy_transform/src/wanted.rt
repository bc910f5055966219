use thor_value::{Oref, Orefs};

/// What has to be at hand where an object is brought up to an epoch.
#[derive(Debug, Drop)]
pub enum Wanted {
    /// This object is read next and is not at hand.
    Part(Oref),
    /// All that is read is at hand: these objects, each once, in the order in which they are read first.
    All(Orefs),
}
