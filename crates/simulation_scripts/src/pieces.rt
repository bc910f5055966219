//! The pieces of a script.

use std::alloc::Global;
use thor_value::NoMemory;

/// An event of a schedule. Clients count from 1, repositories from 0.
#[derive(Clone, Copy)]
pub enum Event {
    /// A client takes a step.
    Step { client: u8 },
    /// A client receives a message of a repository.
    Deliver { client: u8, repo: u8 },
    /// A repository flushes a page.
    Flush { repo: u8 },
    /// A repository makes a checkpoint.
    Checkpoint { repo: u8 },
    /// A repository goes down in a disk call, counted from 1, or at once where it is 0.
    Stop { repo: u8, calls: u8 },
    /// A repository is restarted, and its disks with a pick.
    Restart { repo: u8, pick: u8 },
    /// A repository asks about its least prepared transaction.
    Settle { repo: u8 },
}

/// What a piece is.
#[derive(Drop)]
pub enum What {
    /// A text that stands alone: a field, a method, a root, a statement.
    Line(String),
    /// A text before a block, in which the deeper pieces behind it stand.
    Block(String),
    /// A client. Its items are the deeper pieces behind it.
    Client,
    Event(Event),
}

/// A piece of a script. The deeper pieces behind it, up to the next one that isn't deeper, belong to it.
#[derive(Drop)]
pub struct Piece {
    pub depth: u8,
    /// Whether it is taken away, with all that belongs to it.
    pub is_away: bool,
    pub what: What,
}

/// Pieces, in the order of the text.
#[derive(Drop)]
pub struct Pieces {
    pub alloc: Global,
    pub items: Vec<Piece>,
}

impl Pieces {
    pub fn new(alloc: Global) -> Pieces {
        Pieces {
            alloc,
            items: Vec::new(alloc),
        }
    }

    /// Puts a piece behind the others.
    fn push(&mut self, depth: u8, what: What) -> Result<(), NoMemory> {
        self.items.push(Piece {
            depth,
            is_away: false,
            what,
        })?;
        Ok(())
    }

    /// Puts a text that stands alone behind the others.
    pub fn line(&mut self, depth: u8, text: String) -> Result<(), NoMemory> {
        self.push(depth, What::Line(text))
    }

    /// Puts a block behind the others.
    pub fn block(&mut self, depth: u8, text: String) -> Result<(), NoMemory> {
        self.push(depth, What::Block(text))
    }

    /// Puts a client behind the others.
    pub fn client(&mut self) -> Result<(), NoMemory> {
        self.push(0, What::Client)
    }

    /// Puts an event behind the others.
    pub fn event(&mut self, event: Event) -> Result<(), NoMemory> {
        self.push(1, What::Event(event))
    }
}
