//! A client without its items: what it holds, what it owes, and how far its try has come.

ghost use Rattle.client_state.specs.declared.phase.Phase.TheVariants as phase;
ghost use Rattle.std.specs.Prelude.{IfOk, ◌<◌, ◌≡◌};

use client_state::{Duties, Held, Phase};
use std::alloc::Global;
use thor_value::NoMemory;

/// A client without its items.
#[derive(Drop)]
pub struct Client {
    pub held: Held,
    pub duties: Duties,
    pub phase: Phase,
}

impl Client {
    /// A client that holds nothing, with room for so many pages.
    pub fn new(alloc: Global, client: u8, pages: u32) -> Result<Client, NoMemory>
        requires { 0 < pages }
        ensures { IfOk result (λ client. client.phase ≡ phase.Between) }
    {
        Ok(Client {
            held: Held::new(alloc, client, pages)?,
            duties: Duties::new(alloc),
            phase: Phase::Between,
        })
    }
}
