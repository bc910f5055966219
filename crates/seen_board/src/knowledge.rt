//! What a seat knows. This is plain data of proofs: no value of these types is ever made.

use std::collections::LinkedList;

/// What made an item of a history.
pub enum Maker {
    /// No call: the opening of a store, or a restart.
    Nobody,
    /// A client's call.
    Call {
        /// The client.
        client: u64,
        /// The call's place among those that the client sent, from 0.
        place: u64,
    },
}

/// An item of a history, with what made it.
pub struct Made<I> {
    /// The item.
    pub item: I,
    /// What made it.
    pub by: Maker,
}

/// Lists by number, of which some are owned.
pub struct Family<A> {
    /// The numbers of those that are owned.
    pub owned: LinkedList<u64>,
    /// The lists. Behind the last one stand empty ones for ever.
    pub lists: LinkedList<LinkedList<A>>,
}

/// What was seen of each repository's history and of each client's calls.
pub struct Knowledge<I, C> {
    /// The histories.
    pub items: Family<Made<I>>,
    /// The calls.
    pub calls: Family<C>,
}

/// The view of a seat of the table.
pub struct View<I, C> {
    /// What it knows.
    pub knows: Knowledge<I, C>,
    /// How long it found each history to be.
    pub reached: LinkedList<u64>,
    /// What it knew before it took in what another knows, until the two are compared.
    pub mine: Knowledge<I, C>,
    /// What that other seat knew.
    pub theirs: Knowledge<I, C>,
}
