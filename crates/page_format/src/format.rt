//! The formats of a store.

ghost use Rattle.std.specs.Prelude.{◌≡◌, ◌≤◌};
ghost use Rattle.page_format.specs.Formats.{format_number, page_size_in};

use crate::walk::PAGE;

/// The bytes of a page of an older store.
pub const OLDER_PAGE: usize = 4096;

/// The format of a store: of its checkpoint and of its pages. Pages of both formats say the same, in the same slots.
#[derive(Clone, Copy, Debug, PartialEq, Eq)]
pub enum StoreFormat {
    /// The older one, with pages of 4,096 bytes. It is read, and written no more.
    One,
    /// The one that is written, with pages of 16,384 bytes.
    Two,
}

impl StoreFormat {
    /// The byte that tells it in a page and in a checkpoint: 1 or 2.
    pub fn number(self) -> u8
        ensures { result ≡ format_number self }
    {
        match self {
            StoreFormat::One => 1,
            StoreFormat::Two => 2,
        }
    }

    /// How many bytes a page has.
    pub fn page_bytes(self) -> usize
        ensures size { result ≡ page_size_in self }
        ensures least { 4096 ≤ result }
        ensures most { result ≤ 16384 }
    {
        match self {
            StoreFormat::One => OLDER_PAGE,
            StoreFormat::Two => PAGE,
        }
    }
}
