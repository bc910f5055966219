use crate::names::Names;
use thor_value::{Answer, Obj, Oref, OrefMap, Orefs, Writes};

/// What an evaluation has at hand.
#[derive(Drop)]
pub struct View {
    pub objects: OrefMap<Obj>,
    /// The names that new objects may take. An evaluation gives none of them.
    pub names: Names,
    /// How many upgrades are installed.
    pub epoch: u32,
}

/// How an evaluation ended.
#[derive(Debug, Drop)]
pub enum Ran {
    /// The transaction ended, with its answer.
    Done {
        answer: Answer,
        /// The objects that were read and not created, rising.
        reads: Orefs,
        /// The objects assigned to or created, rising, at the view's epoch.
        writes: Writes,
        /// The names of the created objects, in the order in which they were made.
        fresh: Orefs,
    },
    /// The object that is read next is not at hand. Its owners follow, nearest first.
    Need {
        oref: Oref,
        owners: Orefs,
    },
    /// No name is left for a new object in this repository.
    NeedName {
        repo: u8,
    },
}
