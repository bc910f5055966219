ghost use Rattle.session_outbox.specs.Messages.{first};
ghost use Rattle.session_outbox.specs.declared.message.Message.{Message};
ghost use Rattle.std.specs.Prelude.{OnErr, OnOk, [], drop, length, ◌++◌, ◌≡◌, ◌∷◌};

use crate::message::Message;
use std::alloc::Global;
use std::collections::VecDeque;
use std::marker::Model;
use thor_value::NoMemory;

/// The messages that wait for one session, which contracts see as a list, the oldest first.
#[derive(Drop)]
pub struct Line {
    messages: VecDeque<Message>,
}

impl Model for Line {
    ghost use Rattle.session_outbox.specs.declared.message.Message.{Message};
    ghost use Rattle.std.specs.Prelude.{List};

    ghost Value = { List Message };

    ghost view = { λ l. l.messages.items };
}

impl Line {
    /// No message waits. It takes no memory.
    pub fn new(alloc: Global) -> Line
        ensures { result ≡ [] }
    {
        Line {
            messages: VecDeque::new(alloc),
        }
    }

    /// Puts a message behind the others. After `NoMemory` they are as they were, and the message is gone.
    pub fn push(&mut self, message: Message) -> Result<(), NoMemory>
        ensures ok { OnOk result (self.new ≡ self.old ++ message ∷ []) }
        ensures err { OnErr result (self.new ≡ self.old) }
    {
        self.messages.push_back(message)?;
        Ok(())
    }

    /// How many messages wait.
    pub fn len(&self) -> usize
        ensures { result ≡ length self.now }
    {
        self.messages.len()
    }

    /// Takes the oldest message, where one waits.
    pub fn take(&mut self) -> Option<Message>
        ensures message { result ≡ first self.old }
        ensures rest { self.new ≡ drop 1 self.old }
    {
        self.messages.pop_front()
    }
}
