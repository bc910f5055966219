use crate::events::Events;
use script_text::{Syntax, TokenText};

/// What was read of a schedule's tokens, and what may stand next.
#[derive(Drop)]
pub enum Reader {
    /// Whole events.
    Ready {
        events: Events,
    },
    /// Whole events, and the name of one that may end here, with its line.
    Named {
        events: Events,
        line: u32,
        name: TokenText,
    },
    /// And the point behind that name.
    Dotted {
        events: Events,
        line: u32,
        name: TokenText,
    },
    /// A token couldn't stand where it stood.
    Stopped {
        fault: Syntax,
    },
}
