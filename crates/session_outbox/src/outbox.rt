ghost use Rattle.session_outbox.specs.Messages.{first};
ghost use Rattle.session_outbox.specs.Outbox.{push, take, waiting};
ghost use Rattle.std.specs.Prelude.{Ok, OnErr, OnOk, length, ◌≡◌};
ghost use Rattle.thor_value.specs.FiniteMap.{empty, remove};

use crate::line::Line;
use crate::message::Message;
use std::alloc::Global;
use std::collections::BTreeMap;
use std::marker::Model;
use thor_value::NoMemory;

/// The messages that wait for each session: first in, first out.
#[derive(Drop)]
pub struct Outbox {
    lines: BTreeMap<u32, Line>,
    alloc: Global,
}

impl Model for Outbox {
    ghost use Rattle.session_outbox.specs.Outbox.{Waiting};

    ghost Value = { Waiting };

    ghost view = { λ o. record { pairs = o.lines.entries } };
}

impl Outbox {
    /// No message waits. It takes no memory.
    pub fn new(alloc: Global) -> Result<Outbox, NoMemory>
        ensures { result ≡ Ok empty }
    {
        Ok(Outbox {
            lines: BTreeMap::new(alloc),
            alloc,
        })
    }

    /// Puts a message behind those that wait for a session. After `NoMemory` the outbox is as it was, and
    /// the message is gone.
    pub fn push(&mut self, session: u32, message: Message) -> Result<(), NoMemory>
        ensures ok { OnOk result (self.new ≡ push self.old session message) }
        ensures err { OnErr result (self.new ≡ self.old) }
    {
        if let Some(line) = self.lines.get_mut(&session) {
            return line.push(message);
        }
        let mut line = Line::new(self.alloc);
        line.push(message)?;
        self.lines.insert(session, line)?;
        Ok(())
    }

    /// Takes the oldest message that waits for a session; `None` exactly where none does. It takes no
    /// memory.
    pub fn take(&mut self, session: u32) -> Option<Message>
        ensures message { result ≡ first (waiting self.old session) }
        ensures rest { self.new ≡ take self.old session }
    {
        match self.lines.get_mut(&session) {
            Some(line) => line.take(),
            None => None,
        }
    }

    /// How many messages wait for a session.
    pub fn len(&self, session: u32) -> usize
        ensures { result ≡ length (waiting self.now session) }
    {
        match self.lines.get(&session) {
            Some(line) => line.len(),
            None => 0,
        }
    }

    /// A session ends: what waits for it is let go. It takes no memory.
    pub fn drop_session(&mut self, session: u32)
        ensures { self.new ≡ remove self.old session }
    {
        self.lines.remove(&session);
    }
}
