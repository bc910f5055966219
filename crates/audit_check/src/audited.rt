use class_defs::{Plain, Schemas};
use top_history_check::ClientItems;

/// By what a report is judged: a script, and the store with which it begins.
#[derive(Drop)]
pub struct Audited {
    /// The store with which the script begins.
    pub opened: Plain,
    /// The schemas of its epochs, and those behind the script's upgrades.
    pub schemas: Schemas,
    /// The items of the script's clients.
    pub clients: ClientItems,
}
