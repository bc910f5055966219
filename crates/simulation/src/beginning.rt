//! What is played.

use crate::counts::Size;
use schedule::Event;
use simulation_scripts::Options;
use simulation_setup::Begun;

/// What is played: the clients of a script, with these events.
#[derive(Drop)]
pub(crate) struct Play<'a> {
    pub begun: &'a Begun,
    pub events: &'a [Event],
    pub options: &'a Options,
}

impl Play<'_> {
    /// How many clients and items the script has.
    pub(crate) fn size(&self) -> Size {
        let clients = self.begun.script.clients.as_slice();
        let mut items = 0usize;
        for client in clients {
            items = items.saturating_add(client.as_slice().len());
        }
        Size {
            clients: clients.len(),
            items,
        }
    }
}
