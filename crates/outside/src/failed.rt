use std::error::Error;
use std::fmt;

/// A source or a sink met a fault. It comes only where its count of faults rose in that call.
#[derive(Clone, Copy, Debug, PartialEq, Eq)]
pub struct Failed;

impl fmt::Display for Failed {
    fn fmt<W: fmt::Write>(&self, f: &mut fmt::Formatter<W>) -> fmt::Result {
        write!(f, "the source or the sink failed")
    }
}

impl Error for Failed {}
