//! With what a script is played.

/// With what a script is played: the options of `kilntaupe play`.
#[repr(C)]
#[derive(Clone, Copy)]
pub struct KilntaupeGiven {
    /// How many repositories there are, 1 to 8.
    pub repos: u8,
    /// How many times an item is tried, 1 to 100.
    pub tries: u8,
    /// How many pages a client holds between tries, 1 to 4,096.
    pub cache: u32,
    /// How many bytes of objects a repository buffers, 1 to 16,777,216.
    pub mob: u32,
}

fn is_within(number: u32, greatest: u32) -> bool {
    1 <= number && number <= greatest
}

impl KilntaupeGiven {
    /// Whether each option is in its range.
    pub(crate) fn is_within_ranges(&self) -> bool {
        is_within(u32::from(self.repos), 8)
            && is_within(u32::from(self.tries), 100)
            && is_within(self.cache, 4_096)
            && is_within(self.mob, 16_777_216)
    }
}
