/// What a history has of an item of which it has an entry.
#[derive(Clone, Copy, Debug, PartialEq, Eq)]
pub(crate) enum Standing {
    /// One entry, at this place, and whether all entries of its client behind it are of items with greater numbers.
    Once { place: usize, in_order: bool },
    /// More than one.
    Twice,
}
