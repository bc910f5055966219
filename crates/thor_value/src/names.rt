//! The names of objects and of transactions.

/// How many repositories a store has at most. Their numbers are below this.
pub const REPOSITORIES: u8 = 8;

/// How many pages a repository has at most. Their numbers are below this.
pub const PAGES: u32 = 65_536;

/// In how many slots of a page objects have names. Their numbers are below this.
pub const SLOTS: u8 = 12;

/// The name of an object: its repository, its page there and its slot in the page. Names are
/// ordered by repository, then page, then slot. A slot that was committed is never used again,
/// so a name means one object for good.
#[derive(Clone, Copy, Debug, PartialEq, Eq, PartialOrd, Ord, Hash)]
pub struct Oref {
    /// The repository, from 0.
    pub repo: u8,
    /// The page of the repository, from 0.
    pub page: u32,
    /// The slot of the page, below 12.
    pub slot: u8,
}

/// A timestamp, which is also the name of a transaction (Liskov and others, SIGMOD 1996). The
/// transactions of a store are serial in the order of their timestamps: by time, then repository,
/// then life.
#[derive(Clone, Copy, Debug, PartialEq, Eq, PartialOrd, Ord, Hash)]
pub struct Ts {
    /// The time that the coordinator drew, below 2^62.
    pub time: u64,
    /// The coordinator: the least of the repositories that take part.
    pub repo: u8,
    /// How often the coordinator had been opened or restarted when it drew, from 1.
    pub life: u32,
}
