//! An open store whose repositories and clients are elsewhere.

ghost use Rattle.std.specs.Prelude.{vec_len, ◌≡◌};

use disk_trait::Parts;
use front_end::Opened;
use std::alloc::Global;

/// An open store without its repositories and its clients, which are elsewhere.
#[derive(Drop)]
pub struct Emptied<P: Parts> {
    pub(crate) alloc: Global,
    pub(crate) opened: Opened,
    /// An empty vector with room for the parts.
    pub(crate) spare: Vec<P>,
    ghost empty: { vec_len spare ≡ 0 },
}
