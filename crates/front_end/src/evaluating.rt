//! How the transaction of an item is evaluated.

ghost use Rattle.client_state.specs.Settling.{CameAsSent, NewsAsSent};
ghost use Rattle.client_items.specs.Meanings.{is_ended};
ghost use Rattle.client_state.specs.Pending.{NonePending, pending_in};
ghost use Rattle.front_end.specs.Stepping.{ClientHands};
ghost use Rattle.client_state.specs.Writing.{unsent};
ghost use Rattle.front_end.specs.Writing.{ClientWrites};
ghost use Rattle.paused_eval.specs.Writing.{HasWritten};
ghost use Rattle.client_state.specs.Learning.{Rises};
ghost use Rattle.client_state.specs.Links.{NoneAwaits};
ghost use Rattle.client_state.specs.Moving.{SendsNothingIf};
ghost use Rattle.front_end.specs.Showing.{ShownIf};
ghost use Rattle.client_state.specs.Showing.{CameIf};
ghost use Rattle.client_port.specs.Acting.{ActsIf};
ghost use Rattle.std.specs.Prelude.{IfOk, OnOk, None, false, ◌≡◌};

use crate::client::Client;
use client_items::{News, Opened};
use client_port::Port;
use client_state::{Came, Phase};
use method_eval::Ran;
use paused_eval::Paused;
use serial_model::Cause;
use thor_value::{NoMemory, Oref, Orefs};

impl Client {
    /// Evaluates as far as the copies allow, and makes the call that is next.
    pub fn evaluate<Q: Port>(
        &mut self,
        port: &mut Q,
        opened: &Opened,
        mut run: Paused,
    ) -> Result<News, NoMemory>
        ensures acts { ActsIf Q.shows (Q.view port.old) (Q.view port.new) }
        ensures shown { ShownIf Q.shows (Q.view port.old) (Q.view port.new) opened.now.repos result }
        ensures moves { NoneAwaits 8 self.old.held.links.items → OnOk result (SendsNothingIf Q.shows (Q.view port.old) (Q.view port.new) self.old.held self.new.held) }
        ensures free { pending_in self.new.phase ≡ NonePending }
        ensures ends { IfOk result (λ news. is_ended news ≡ false) }
        ensures hands { OnOk result (ClientHands Q.shows (Q.view port.old) (Q.view port.new) self.old self.new) }
        ensures as_sent { IfOk result (NewsAsSent self.old.held.links.items) }
        ensures writes { ClientWrites self.new }
        ensures rises { Rises self.old.held self.new.held }
    {
        let ran = self.held.evaluate(opened, &mut run);
        let awaited = None;
        self.set_phase(Phase::Evaluating { run, awaited });
        self.go_behind_run(port, opened, ran?)
    }

    /// Makes the call that is next behind an evaluation, which has ended or waits.
    fn go_behind_run<Q: Port>(
        &mut self,
        port: &mut Q,
        opened: &Opened,
        ran: Ran,
    ) -> Result<News, NoMemory>
        ensures acts { ActsIf Q.shows (Q.view port.old) (Q.view port.new) }
        ensures shown { ShownIf Q.shows (Q.view port.old) (Q.view port.new) opened.now.repos result }
        ensures moves { NoneAwaits 8 self.old.held.links.items → OnOk result (SendsNothingIf Q.shows (Q.view port.old) (Q.view port.new) self.old.held self.new.held) }
        ensures free { pending_in self.old.phase ≡ NonePending → pending_in self.new.phase ≡ NonePending }
        ensures ends { IfOk result (λ news. is_ended news ≡ false) }
        ensures hands { OnOk result (ClientHands Q.shows (Q.view port.old) (Q.view port.new) self.old self.new) }
        ensures as_sent { IfOk result (NewsAsSent self.old.held.links.items) }
        ensures writes { unsent self.old.phase ≡ None → HasWritten ran self.old.held.cache.cache → ClientWrites self.new }
        ensures rises { Rises self.old.held self.new.held }
    {
        match ran {
            Ran::Done {
                answer,
                reads,
                writes,
                fresh,
            } => {
                let transaction = self.held.evaluated(opened, answer, reads, writes, fresh)?;
                self.join_and_draw(port, opened, transaction)
            }
            Ran::Need { oref, owners } => self.need(port, opened, oref, owners),
            Ran::NeedName { repo } => self.need_name(port, opened, repo),
        }
    }

    /// An object is needed that isn't held, or that is due.
    fn need<Q: Port>(
        &mut self,
        port: &mut Q,
        opened: &Opened,
        oref: Oref,
        owners: Orefs,
    ) -> Result<News, NoMemory>
        ensures acts { ActsIf Q.shows (Q.view port.old) (Q.view port.new) }
        ensures shown { ShownIf Q.shows (Q.view port.old) (Q.view port.new) opened.now.repos result }
        ensures moves { NoneAwaits 8 self.old.held.links.items → OnOk result (SendsNothingIf Q.shows (Q.view port.old) (Q.view port.new) self.old.held self.new.held) }
        ensures free { pending_in self.old.phase ≡ NonePending → pending_in self.new.phase ≡ NonePending }
        ensures ends { IfOk result (λ news. is_ended news ≡ false) }
        ensures hands { OnOk result (ClientHands Q.shows (Q.view port.old) (Q.view port.new) self.old self.new) }
        ensures as_sent { IfOk result (NewsAsSent self.old.held.links.items) }
        ensures writes { unsent self.old.phase ≡ None → ClientWrites self.new }
        ensures rises { Rises self.old.held self.new.held }
    {
        match self.held.copy_of(oref)? {
            Some(obj) => self.begin_transform(port, opened, oref, obj, owners),
            None => self.fetch_needed(port, opened, oref),
        }
    }

    /// Asks for the page of an object that is needed next.
    pub fn fetch_needed<Q: Port>(
        &mut self,
        port: &mut Q,
        opened: &Opened,
        oref: Oref,
    ) -> Result<News, NoMemory>
        ensures acts { ActsIf Q.shows (Q.view port.old) (Q.view port.new) }
        ensures shown { ShownIf Q.shows (Q.view port.old) (Q.view port.new) opened.now.repos result }
        ensures moves { NoneAwaits 8 self.old.held.links.items → OnOk result (SendsNothingIf Q.shows (Q.view port.old) (Q.view port.new) self.old.held self.new.held) }
        ensures free { pending_in self.old.phase ≡ NonePending → pending_in self.new.phase ≡ NonePending }
        ensures ends { IfOk result (λ news. is_ended news ≡ false) }
        ensures hands { OnOk result (ClientHands Q.shows (Q.view port.old) (Q.view port.new) self.old self.new) }
        ensures as_sent { IfOk result (NewsAsSent self.old.held.links.items) }
        ensures writes { unsent self.old.phase ≡ None → ClientWrites self.new }
        ensures rises { Rises self.old.held self.new.held }
    {
        if oref.repo >= opened.repos {
            return Ok(self.end_try(Cause::Missing { oref }));
        }
        self.phase.await_page(oref);
        let came = self.fetch(port, opened, oref)?;
        Ok(self.go_behind(came))
    }

    /// A name is needed for a new object.
    fn need_name<Q: Port>(
        &mut self,
        port: &mut Q,
        opened: &Opened,
        repo: u8,
    ) -> Result<News, NoMemory>
        ensures acts { ActsIf Q.shows (Q.view port.old) (Q.view port.new) }
        ensures shown { ShownIf Q.shows (Q.view port.old) (Q.view port.new) opened.now.repos result }
        ensures moves { NoneAwaits 8 self.old.held.links.items → OnOk result (SendsNothingIf Q.shows (Q.view port.old) (Q.view port.new) self.old.held self.new.held) }
        ensures free { pending_in self.old.phase ≡ NonePending → pending_in self.new.phase ≡ NonePending }
        ensures ends { IfOk result (λ news. is_ended news ≡ false) }
        ensures hands { OnOk result (ClientHands Q.shows (Q.view port.old) (Q.view port.new) self.old self.new) }
        ensures as_sent { IfOk result (NewsAsSent self.old.held.links.items) }
        ensures writes { unsent self.old.phase ≡ None → ClientWrites self.new }
        ensures rises { Rises self.old.held self.new.held }
    {
        if repo >= opened.repos {
            let oref = Oref {
                repo,
                page: 0,
                slot: 0,
            };
            return Ok(self.end_try(Cause::Missing { oref }));
        }
        let came = self.ask_for_names(port, opened, repo)?;
        Ok(self.go_behind(came))
    }

    /// Asks for the page of an object, or begins a session at its repository.
    fn fetch<Q: Port>(
        &mut self,
        port: &mut Q,
        opened: &Opened,
        oref: Oref,
    ) -> Result<Came, NoMemory>
        ensures acts { ActsIf Q.shows (Q.view port.old) (Q.view port.new) }
        ensures shown { CameIf Q.shows (Q.view port.old) (Q.view port.new) result }
        ensures moves { NoneAwaits 8 self.old.held.links.items → OnOk result (SendsNothingIf Q.shows (Q.view port.old) (Q.view port.new) self.old.held self.new.held) }
        ensures phase { self.new.phase ≡ self.old.phase }
        ensures hands { OnOk result (ClientHands Q.shows (Q.view port.old) (Q.view port.new) self.old self.new) }
        ensures as_sent { IfOk result (CameAsSent self.old.held.links.items) }
        ensures rises { Rises self.old.held self.new.held }
    {
        match self.held.at(oref.repo) {
            Some(at) => self.held.fetch(port, at, oref.page),
            None => self.join(port, opened, oref.repo),
        }
    }

    /// Asks for a page of names, or begins a session at the repository.
    fn ask_for_names<Q: Port>(
        &mut self,
        port: &mut Q,
        opened: &Opened,
        repo: u8,
    ) -> Result<Came, NoMemory>
        ensures acts { ActsIf Q.shows (Q.view port.old) (Q.view port.new) }
        ensures shown { CameIf Q.shows (Q.view port.old) (Q.view port.new) result }
        ensures moves { NoneAwaits 8 self.old.held.links.items → OnOk result (SendsNothingIf Q.shows (Q.view port.old) (Q.view port.new) self.old.held self.new.held) }
        ensures phase { self.new.phase ≡ self.old.phase }
        ensures hands { OnOk result (ClientHands Q.shows (Q.view port.old) (Q.view port.new) self.old self.new) }
        ensures as_sent { IfOk result (CameAsSent self.old.held.links.items) }
        ensures rises { Rises self.old.held self.new.held }
    {
        match self.held.at(repo) {
            Some(at) => self.held.ask_for_names(port, at),
            None => self.join(port, opened, repo),
        }
    }
}
