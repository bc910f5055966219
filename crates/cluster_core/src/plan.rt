//! What a run is asked for.

use class_defs::{Schemas, Setup};
use front_end::Items;

/// What a store is opened with.
#[derive(Drop)]
pub enum Start {
    /// A fresh store is formatted with this.
    Setup(Setup),
    /// The store is opened as it stands.
    Stored,
}

/// What a run is asked for. The store that was found is fresh exactly where the start is a setup.
#[derive(Drop)]
pub struct Plan {
    pub start: Start,
    /// How many times an item is tried, 1 to 100.
    pub tries: u32,
    /// How many pages a client caches, 1 to 4,096.
    pub cache: u32,
    /// The schemas on which the clients run: those of the store's epochs, and behind them those of the script's upgrades.
    pub schemas: Schemas,
    /// The items of the clients 1, 2, .., at most 64. They break no rule in any epoch of the store and the script.
    pub clients: Vec<Items>,
}
