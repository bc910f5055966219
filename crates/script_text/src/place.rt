/// How far a text has been read.
#[derive(Clone, Copy)]
pub struct Place {
    /// The place of the next byte, from 0.
    pub from: usize,
    /// Its line, from 1.
    pub line: usize,
}
