//! The sixth rule: the try goes on.

ghost use Rattle.client_state.specs.Settling.{NewsAsSent};
ghost use Rattle.client_items.specs.Meanings.{is_ended};
ghost use Rattle.client_state.specs.Pending.{NonePending, pending_in};
ghost use Rattle.front_end.specs.Stepping.{ClientGoesOn, ClientHands};
ghost use Rattle.client_state.specs.Writing.{unsent};
ghost use Rattle.front_end.specs.Writing.{ClientWrites};
ghost use Rattle.client_state.specs.Learning.{Rises};
ghost use Rattle.client_state.specs.Links.{NoneAwaits};
ghost use Rattle.client_state.specs.Moving.{SendsNothingIf};
ghost use Rattle.front_end.specs.Showing.{ShownIf};
ghost use Rattle.client_port.specs.Acting.{ActsIf};
ghost use Rattle.std.specs.Prelude.{IfOk, OnOk, None, false, ◌≡◌};

use crate::client::Client;
use client_items::{Asked, News, Opened, Task};
use client_port::Port;
use client_state::{Phase, Transaction};
use thor_value::NoMemory;
use upgrade_defs::print_upgrade;

impl Client {
    /// Makes the call that is next for the present item.
    pub fn go_on<Q: Port>(
        &mut self,
        port: &mut Q,
        opened: &Opened,
        task: Task<'_>,
    ) -> Result<News, NoMemory>
        ensures acts { ActsIf Q.shows (Q.view port.old) (Q.view port.new) }
        ensures shown { ShownIf Q.shows (Q.view port.old) (Q.view port.new) opened.now.repos result }
        ensures moves { ClientWrites self.old → NoneAwaits 8 self.old.held.links.items → IfOk result (ClientGoesOn Q.shows (record { who = task.entry.who; tries = task.entry.tries }) (Q.view port.old) (Q.view port.new) self.old self.new) }
        ensures as_sent { IfOk result (NewsAsSent self.old.held.links.items) }
        ensures writes { ClientWrites self.old → ClientWrites self.new }
        ensures rises { Rises self.old.held self.new.held }
    {
        match self.take_phase() {
            Phase::Between | Phase::Beginning => self.begin(port, opened, task),
            Phase::Evaluating { run, .. } => self.evaluate(port, opened, run),
            Phase::Transforming { run, transform } => {
                self.transform(port, opened, run, transform)
            }
            Phase::Evaluated { transaction } => self.join_and_draw(port, opened, transaction),
            Phase::Drawn { ts, transaction } => self.send(port, opened, task.who, ts, transaction),
            Phase::Preparing {
                ts,
                transaction,
                coordinator,
                prepared,
            } => self.prepare_or_decide(
                port,
                opened,
                task.who,
                ts,
                transaction,
                coordinator,
                prepared,
            ),
            Phase::Asking { sent, answers } => {
                self.set_phase(Phase::Asking { sent, answers });
                Ok(News::Nothing)
            }
        }
    }

    /// Begins the evaluation of the present item, or makes its upgrade. Nothing is written then.
    fn begin<Q: Port>(
        &mut self,
        port: &mut Q,
        opened: &Opened,
        task: Task<'_>,
    ) -> Result<News, NoMemory>
        ensures acts { ActsIf Q.shows (Q.view port.old) (Q.view port.new) }
        ensures shown { ShownIf Q.shows (Q.view port.old) (Q.view port.new) opened.now.repos result }
        ensures moves { NoneAwaits 8 self.old.held.links.items → OnOk result (SendsNothingIf Q.shows (Q.view port.old) (Q.view port.new) self.old.held self.new.held) }
        ensures free { pending_in self.old.phase ≡ NonePending → pending_in self.new.phase ≡ NonePending }
        ensures ends { IfOk result (λ news. is_ended news ≡ false) }
        ensures hands { OnOk result (ClientHands Q.shows (Q.view port.old) (Q.view port.new) self.old self.new) }
        ensures as_sent { IfOk result (NewsAsSent self.old.held.links.items) }
        ensures writes { unsent self.old.phase ≡ None → ClientWrites self.new }
        ensures rises { Rises self.old.held self.new.held }
    {
        let alloc = self.held.alloc;
        match task.what {
            Some(Asked::Tx(text)) => {
                let run = self.held.begin(text)?;
                self.evaluate(port, opened, run)
            }
            Some(Asked::Upgrade(upgrade)) => {
                let text = print_upgrade(alloc, upgrade)?;
                let transaction = Transaction::upgrade(task.number, text, opened.repos)?;
                self.held.undo();
                self.join_and_draw(port, opened, transaction)
            }
            None => Ok(News::Nothing),
        }
    }
}
