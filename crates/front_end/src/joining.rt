//! How a session begins where a try needs one.

ghost use Rattle.client_state.specs.Settling.{CameAsSent, NewsAsSent};
ghost use Rattle.client_items.specs.Meanings.{is_ended};
ghost use Rattle.client_state.specs.Pending.{NonePending, pending_in};
ghost use Rattle.front_end.specs.Stepping.{ClientHands};
ghost use Rattle.front_end.specs.Writing.{ClientWrites};
ghost use Rattle.client_state.specs.Learning.{Rises};
ghost use Rattle.client_state.specs.Links.{session_in};
ghost use Rattle.client_state.specs.Moving.{SendsNothingIf};
ghost use Rattle.front_end.specs.Showing.{ShownIf};
ghost use Rattle.client_state.specs.Showing.{CameIf};
ghost use Rattle.client_port.specs.Acting.{ActsIf};
ghost use Rattle.std.specs.Prelude.{IfOk, None, OnOk, false, slice_get, ◌≡◌};

use crate::client::Client;
use client_items::{News, Opened};
use client_port::Port;
use client_state::{Came, cause_of};
use session_outbox::Asked;
use thor_value::{NoMemory, Ts};

impl Client {
    /// Begins a session that the try needs, and goes on behind it.
    pub fn join_behind<Q: Port>(
        &mut self,
        port: &mut Q,
        opened: &Opened,
        repo: u8,
    ) -> Result<News, NoMemory>
        ensures acts { ActsIf Q.shows (Q.view port.old) (Q.view port.new) }
        ensures shown { ShownIf Q.shows (Q.view port.old) (Q.view port.new) opened.now.repos result }
        ensures moves { session_in repo (slice_get self.old.held.links.items repo) ≡ None → OnOk result (SendsNothingIf Q.shows (Q.view port.old) (Q.view port.new) self.old.held self.new.held) }
        ensures free { pending_in self.old.phase ≡ NonePending → pending_in self.new.phase ≡ NonePending }
        ensures ends { IfOk result (λ news. is_ended news ≡ false) }
        ensures hands { OnOk result (ClientHands Q.shows (Q.view port.old) (Q.view port.new) self.old self.new) }
        ensures as_sent { IfOk result (NewsAsSent self.old.held.links.items) }
        ensures writes { ClientWrites self.old → ClientWrites self.new }
        ensures rises { Rises self.old.held self.new.held }
    {
        let came = self.join(port, opened, repo)?;
        Ok(self.go_behind(came))
    }

    /// Begins a session at a repository. Where an Unknown item's verdict is still to be learnt there,
    /// that is asked for first, and no session begins.
    pub fn join<Q: Port>(
        &mut self,
        port: &mut Q,
        opened: &Opened,
        repo: u8,
    ) -> Result<Came, NoMemory>
        ensures acts { ActsIf Q.shows (Q.view port.old) (Q.view port.new) }
        ensures shown { CameIf Q.shows (Q.view port.old) (Q.view port.new) result }
        ensures moves { session_in repo (slice_get self.old.held.links.items repo) ≡ None → OnOk result (SendsNothingIf Q.shows (Q.view port.old) (Q.view port.new) self.old.held self.new.held) }
        ensures phase { self.new.phase ≡ self.old.phase }
        ensures hands { OnOk result (ClientHands Q.shows (Q.view port.old) (Q.view port.new) self.old self.new) }
        ensures cache { self.new.held.cache ≡ self.old.held.cache }
        ensures as_sent { IfOk result (CameAsSent self.old.held.links.items) }
        ensures rises { Rises self.old.held self.new.held }
    {
        match self.held.unsettled(repo) {
            Some(ts) => self.ask_before(port, opened, repo, ts),
            None => self.held.connect(port, opened, repo),
        }
    }

    /// Asks for the verdict on an Unknown item. An own upgrade that is learnt lets the evaluation begin
    /// anew.
    fn ask_before<Q: Port>(
        &mut self,
        port: &mut Q,
        opened: &Opened,
        repo: u8,
        ts: Ts,
    ) -> Result<Came, NoMemory>
        ensures acts { ActsIf Q.shows (Q.view port.old) (Q.view port.new) }
        ensures shown { CameIf Q.shows (Q.view port.old) (Q.view port.new) result }
        ensures moves { OnOk result (SendsNothingIf Q.shows (Q.view port.old) (Q.view port.new) self.old.held self.new.held) }
        ensures phase { self.new.phase ≡ self.old.phase }
        ensures hands { OnOk result (ClientHands Q.shows (Q.view port.old) (Q.view port.new) self.old self.new) }
        ensures cache { self.new.held.cache ≡ self.old.held.cache }
        ensures as_sent { IfOk result (CameAsSent self.old.held.links.items) }
        ensures rises { Rises self.old.held self.new.held }
    {
        match port.ask(repo, ts) {
            Ok(Asked::Settled(verdict)) => {
                match self.learn_verdict(opened, repo, verdict)? {
                    Some(learnt) => Ok(Came::Learnt(learnt)),
                    None => Ok(Came::Well),
                }
            }
            Ok(Asked::Undecided) => Ok(Came::Well),
            Err(refusal) => Ok(Came::Refused(cause_of(refusal, repo)?)),
        }
    }
}
