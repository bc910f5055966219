use crate::sections::{ClientParts, ItemParts, Sections};
use crate::syntax::Syntax;
use crate::token::Tokens;

/// The setup, and the clients that are whole.
#[derive(Drop)]
pub struct Found {
    pub setup: Option<Tokens>,
    pub clients: ClientParts,
    /// Whether one of the clients has an upgrade.
    pub upgraded: bool,
}

/// The client that is read, with what stands before it.
#[derive(Drop)]
pub struct Current {
    pub found: Found,
    /// Its items that are whole.
    pub items: ItemParts,
    /// Whether it has an upgrade.
    pub upgrading: bool,
}

/// What was read of a script's tokens, and what may stand next.
#[derive(Drop)]
pub enum Reader {
    /// Nothing was read.
    Start,
    /// The setup is read: its tokens, how many braces are open, and whether it may end here.
    Setup {
        part: Tokens,
        depth: usize,
        closed: bool,
    },
    /// The word `client` was read, and not its number.
    Number {
        found: Found,
    },
    /// An item may begin.
    Client {
        current: Current,
    },
    /// The first word of an item was read.
    Word {
        current: Current,
        part: Tokens,
    },
    /// An item is read: its tokens, and how many braces are open beside its own.
    Item {
        current: Current,
        part: Tokens,
        depth: usize,
    },
    /// The schedule is read.
    Schedule {
        found: Found,
        tokens: Tokens,
    },
    /// A token couldn't stand where it stood.
    Stopped {
        sections: Sections,
        fault: Syntax,
    },
}
