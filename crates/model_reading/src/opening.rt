//! What a new repository begins with.

use thor_value::Writes;

/// A new repository, of which nothing was lost: it has been opened never before, and remembers all of its sessions.
#[derive(Drop)]
pub struct Opening {
    /// Its number, from 0, and how many repositories there are.
    pub repo: u8,
    pub repos: u8,
    /// The limit of its buffer of modified objects, in bytes.
    pub limit: u32,
    /// Its objects with their names: the roots of the store.
    pub objects: Writes,
    /// The least page that was never granted.
    pub next_page: u32,
}
