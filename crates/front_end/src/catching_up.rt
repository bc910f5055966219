//! The second rule: the client catches up with a repository that refused it.

ghost use Rattle.client_state.specs.declared.link.Link.{Link};
ghost use Rattle.client_state.specs.Settling.{NewsAsSent};
ghost use Rattle.client_state.specs.Stepping.{Present};
ghost use Rattle.front_end.specs.Stepping.{ClientSteps};
ghost use Rattle.front_end.specs.Writing.{ClientWrites};
ghost use Rattle.client_state.specs.Learning.{Rises};
ghost use Rattle.client_state.specs.Moving.{InSession};
ghost use Rattle.front_end.specs.Showing.{ShownIf};
ghost use Rattle.client_port.specs.Acting.{ActsIf};
ghost use Rattle.std.specs.Prelude.{IfOk, List};

use crate::client::Client;
use client_items::{News, Opened};
use client_port::Port;
use client_state::Waits;
use session_outbox::At;
use thor_value::NoMemory;

impl Client {
    /// Takes a message of the session. Where none waits, the client has caught up.
    pub fn catch_up<Q: Port>(
        &mut self,
        port: &mut Q,
        opened: &Opened,
        at: At,
        left: bool,
    ) -> Result<News, NoMemory>
        ensures acts { ActsIf Q.shows (Q.view port.old) (Q.view port.new) }
        ensures shown { ShownIf Q.shows (Q.view port.old) (Q.view port.new) opened.now.repos result }
        ensures moves { (item : Present) → InSession at self.old.held → IfOk result (ClientSteps Q.shows item (Q.view port.old) (Q.view port.new) self.old self.new) }
        ensures as_sent { (links : List Link) → IfOk result (NewsAsSent links) }
        ensures writes { ClientWrites self.old → ClientWrites self.new }
        ensures rises { Rises self.old.held self.new.held }
    {
        match self.receive(port, opened, at, left)? {
            Some(news) => Ok(news),
            None => {
                self.held.wait(at.repo, Waits::Idle);
                Ok(News::Nothing)
            }
        }
    }
}
