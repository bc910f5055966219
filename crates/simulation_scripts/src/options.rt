//! With what a script is played.

/// What comes behind the last event.
#[derive(Clone, Copy)]
pub enum Ending {
    /// All items end.
    Drained,
    /// All items end, and then each repository makes a checkpoint.
    Checkpointed,
    /// All items end, the store is opened again, and the same clients and events come once more.
    Again,
    /// Nothing: each repository crashes, and each of its disks leaves the image of this pick.
    Cut { pick: u8 },
}

/// With what a script is played.
#[derive(Clone, Copy)]
pub struct Options {
    /// How many repositories there are, 1 to 8.
    pub repos: u8,
    /// How many times an item is tried, 1 to 100.
    pub tries: u8,
    /// How many pages a client holds between tries, 1 to 4,096.
    pub cache: u16,
    /// How many bytes of objects a repository buffers, 1 to 16,777,216.
    pub mob: u32,
    pub ending: Ending,
}
