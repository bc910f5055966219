use std::error::Error;
use std::fmt;

/// Why some bytes gave no page.
#[derive(Clone, Copy, Debug, PartialEq, Eq)]
pub enum Damaged {
    /// The bytes are no page.
    NoPage,
    /// Memory was not there.
    NoMemory,
}

/// Why an object wasn't put into a page.
#[derive(Clone, Copy, Debug, PartialEq, Eq)]
pub enum Full {
    /// The whole would pass 16,384 bytes or 255 objects.
    NoRoom,
    /// Memory was not there.
    NoMemory,
}

impl fmt::Display for Damaged {
    fn fmt<W: fmt::Write>(&self, f: &mut fmt::Formatter<W>) -> fmt::Result {
        match self {
            Damaged::NoPage => write!(f, "the bytes are no page"),
            Damaged::NoMemory => write!(f, "out of memory"),
        }
    }
}

impl fmt::Display for Full {
    fn fmt<W: fmt::Write>(&self, f: &mut fmt::Formatter<W>) -> fmt::Result {
        match self {
            Full::NoRoom => write!(f, "the page is full"),
            Full::NoMemory => write!(f, "out of memory"),
        }
    }
}

impl Error for Damaged {}

impl Error for Full {}
