use class_defs::Declarations;
use schedule::Events;
use serial_model::What;
use thor_value::Sequence;

/// The items of a client, in order.
pub type Items = Sequence<What>;

/// The items of each client, in order.
pub type ClientItems = Sequence<Items>;

/// A script, read.
#[derive(Debug)]
pub struct Script {
    /// What the section `setup` declares, where the script has it.
    pub setup: Option<Declarations>,
    pub clients: ClientItems,
    /// The events of the schedule; none without it.
    pub events: Events,
}

impl Drop for Script {
    fn drop(self) {
        let Script {
            setup,
            clients,
            events,
        } = self;
        drop(setup);
        drop(clients);
        drop(events);
    }
}
