//! A script, as it was drawn.

use crate::options::Options;
use crate::pieces::Piece;

/// A script with its schedule, and with what it is played.
#[derive(Drop)]
pub struct Script {
    pub options: Options,
    /// How many clients there are.
    pub clients: u8,
    pub pieces: Vec<Piece>,
}
