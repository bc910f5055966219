use crate::name_set::NameSet;

/// A transaction in the queue.
#[derive(Debug, Drop)]
pub struct Member {
    /// Whether it has committed.
    pub decided: bool,
    /// Whether it is an upgrade of classes.
    pub upgrade: bool,
    /// The objects that it read or created.
    pub read: NameSet,
    /// The objects that it wrote or created.
    pub written: NameSet,
}
