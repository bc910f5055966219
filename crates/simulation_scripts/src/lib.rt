//! Scripts with schedules that are drawn from a seed: as data, of which pieces can be taken away, and as text.
#![tactic(auto)]

mod classes;
mod clients;
mod draws;
mod layout;
mod making;
mod options;
mod phases;
mod pieces;
mod printing;
mod roots;
mod script;
mod shrinking;
mod statements;
mod texts;
mod trouble;
mod upgrades;
mod words;
mod world;

pub use draws::Draws;
pub use making::make;
pub use options::{Ending, Options};
pub use pieces::{Event, Piece, What};
pub use printing::print;
pub use script::Script;
pub use shrinking::{Trial, shrink};
pub use trouble::{Told, make_trouble};
pub use words::{Asked, read_words};
pub use world::Bounds;
